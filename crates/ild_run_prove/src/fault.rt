//! Why no proof is made.
use ild_cbor::BlockWhy;
use ild_data::BlockId;

/// Why no proof is made.
#[derive(Clone, Copy, Debug, PartialEq, Eq)]
pub enum ProveFault {
    /// No value stands under the id: this block isn't held, or isn't what has to stand there.
    Block { id: BlockId, why: BlockWhy },
    /// The store failed.
    Store,
    /// Memory is wanting.
    Memory,
}
