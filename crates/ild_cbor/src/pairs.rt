//! The entries of a map, in order.
ghost use Rattle.std.specs.Prelude.{◌≤◌, length};
ghost use Rattle.ild_cbor.specs.Spelled.{SpellsSomeMembers};

/// An iterator over the keys and values of a map, which walks the map once.
#[derive(Clone, Copy)]
pub struct Pairs<'b> {
    pub(crate) block: &'b [u8],
    pub(crate) from: usize,
    pub(crate) left: u64,
    ghost within: { from ≤ length block.now },
    ghost stands: { ∥ SpellsSomeMembers block.now from left ∥₁ },
}
