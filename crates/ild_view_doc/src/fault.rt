//! Why bytes are no root block of a type.
use ild_cbor::{CborFault, Why};

/// Why bytes are no root block of a type.
#[derive(Clone, Copy, Debug, PartialEq, Eq)]
pub enum DocErr {
    /// They are no block.
    Cbor(CborFault),
    /// The block is no value of the type: the first cause on a walk of it.
    Shape(Why),
    /// Memory is wanting.
    Memory,
}
