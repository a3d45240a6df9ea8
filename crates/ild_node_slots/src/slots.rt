//! A walk over all slots of a node.
ghost use Rattle.std.specs.Prelude.{◌≤◌};

use ild_cbor::Items;

/// An iterator over the slots of a node, one for each index, which passes over the node once.
#[derive(Clone, Copy)]
pub struct Slots<'b> {
    pub(crate) map: &'b [u8],
    pub(crate) next: usize,
    pub(crate) count: usize,
    pub(crate) elements: Items<'b>,
    ghost within: { next ≤ count },
}
