//! What a run of the generator comes to.
use ild_data::BlockId;

/// How many keys were set, were deleted, and were not there to be deleted.
#[derive(Clone, Copy)]
pub(crate) struct Counts {
    pub(crate) sets: u64,
    pub(crate) dels: u64,
    pub(crate) absent: u64,
}

/// These counts, how many entries the last map has, and its root.
#[derive(Clone, Copy)]
pub struct Summary {
    pub sets: u64,
    pub dels: u64,
    pub absent: u64,
    pub len: u64,
    pub root: BlockId,
}
