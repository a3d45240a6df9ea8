//! Why a value gets no root that names its schema.
use ild_cbor::BlockWhy;
use ild_data::{BlockId, Octets};

/// Why a value gets no root that names its schema.
#[derive(Drop)]
pub enum NameFault {
    /// It nests more than 95 levels.
    Depth,
    /// The root's block or the schema's would be longer than 4,194,304 bytes.
    Size,
    /// The store failed.
    Store,
    /// Other bytes are held under the id of a block that was to be put: both have this id.
    Clash {
        id: BlockId,
        kept: Octets,
        new: Octets,
    },
    /// The block under an id isn't held, or isn't what the type asks for there.
    Block {
        id: BlockId,
        why: BlockWhy,
    },
    /// Memory is wanting.
    Memory,
}
