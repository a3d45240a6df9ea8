//! Why no edit is done.
use ild_data::{BlockId, Octets};

/// Why an edit at a place leaves no new root block.
#[derive(Drop)]
pub enum EditFault {
    /// More keys of a HAMT than a bucket takes agree in all bits of their hashes that levels read with the one at which the part was to
    /// come: it has no place there. Of a place that isn't exhausted, in a value that the store holds, it never comes.
    Exhausted,
    /// The key of the entry that was to go isn't in its HAMT. Of a place in a value that the store holds it never comes.
    NoKey,
    /// A block would be longer than 4,194,304 bytes.
    Size,
    /// The store failed.
    Store,
    /// Other bytes are held under the id of a block that was to be put.
    Clash {
        id: BlockId,
        kept: Octets,
        new: Octets,
    },
    /// There is no memory for the blocks.
    Memory,
}
