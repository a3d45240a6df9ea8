//! One item inside a block.
ghost use Rattle.std.specs.Prelude.{◌≤◌, length};
ghost use Rattle.ild_cbor.specs.Spelled.{SpellsSome};

/// A canonical item inside a block: a borrow of the block, and where the item begins and ends.
#[derive(Clone, Copy)]
pub struct Node<'b> {
    pub(crate) block: &'b [u8],
    pub(crate) from: usize,
    pub(crate) to: usize,
    ghost order: { from ≤ to },
    ghost within: { to ≤ length block.now },
    ghost stands: { ∥ SpellsSome block.now from to ∥₁ },
}
