//! Why no value is shown.
use ild_cbor::BlockWhy;
use ild_data::BlockId;

/// Why no value is shown.
#[derive(Clone, Copy, Debug, PartialEq, Eq)]
pub enum ShowFault {
    /// A map whose only key is `/` stands in the shown form, so it has no JSON.
    Reserved,
    /// No value stands under the id: this block isn't held, or isn't what has to stand there.
    Block { id: BlockId, why: BlockWhy },
    /// The store failed.
    Store,
    /// Memory is wanting.
    Memory,
}
