//! Rows with the hashes of their keys.
use crate::row::Row;

/// A row, and the hash of its key.
#[derive(Clone, Copy)]
pub struct Keyed<'r> {
    pub row: &'r Row,
    pub hash: [u8; 32],
}
