//! The items of a list, in order.
ghost use Rattle.std.specs.Prelude.{◌≤◌, length};
ghost use Rattle.ild_cbor.specs.Spelled.{SpellsSomeItems};

/// An iterator over the items of a list, which walks the list once.
#[derive(Clone, Copy)]
pub struct Items<'b> {
    pub(crate) block: &'b [u8],
    pub(crate) from: usize,
    pub(crate) left: u64,
    ghost within: { from ≤ length block.now },
    ghost stands: { ∥ SpellsSomeItems block.now from left ∥₁ },
}
