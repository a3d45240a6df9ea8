//! What is written into a node.
use crate::rows::Rows;
use ild_data::BlockId;

/// What a used slot of a new node holds.
#[derive(Drop)]
pub enum NewHold {
    /// The link to the block of a child node.
    Child(BlockId),
    /// The entries of a bucket.
    Bucket(Rows),
}

/// A used slot of a new node.
#[derive(Drop)]
pub struct NewSlot {
    pub index: u8,
    pub hold: NewHold,
}
