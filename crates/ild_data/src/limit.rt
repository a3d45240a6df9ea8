//! The limits of a block.

/// How many bytes a block has at most: 4 MiB.
pub const LONGEST_BLOCK: usize = 4_194_304;
