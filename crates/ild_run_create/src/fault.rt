//! Why no value is created.
use ild_data::BlockId;

/// Why bytes make no value that a store can hold, in the order in which it is told.
#[derive(Clone, Copy, Debug, PartialEq, Eq)]
pub enum Refusal {
    /// The bytes are no DAG-JSON.
    Json,
    /// The data mean no value of the type.
    Mismatch,
    /// A tuple has an absent field before a present one.
    Hole,
    /// A delimiter stands elsewhere than at the joints of its text.
    Delimiter,
    /// The value nests more than 96 levels.
    Depth,
    /// More keys of a HAMT than a bucket takes agree in all bits of their hashes that levels read.
    Exhausted,
    /// A block of the value is longer than 4,194,304 bytes.
    Size,
}

/// Why no value is created.
#[derive(Clone, Copy, Debug, PartialEq, Eq)]
pub enum CreateFault {
    /// The bytes make no value that a store can hold; nothing is put.
    Refused(Refusal),
    /// The store failed.
    Store,
    /// Other bytes are kept under the id of a block of the value.
    Clash(BlockId),
    /// Memory is wanting.
    Memory,
}
