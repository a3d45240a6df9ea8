//! Values on the way of a path.
ghost use Rattle.std.specs.Prelude.{◌<◌, ◌+◌, ◌^◌, length};

use ild_data::Octets;
use ild_view::View;

/// A value on the way of a path: its view, how many levels it may nest, the number of the block in which it stands, and the blocks that are left.
#[derive(Clone, Copy)]
pub(crate) struct Stand<'b> {
    pub(crate) view: View<'b>,
    pub(crate) room: u32,
    pub(crate) at: usize,
    pub(crate) left: &'b [Octets],
    ghost few: { at + length left.now + 1 < 2 ^ 64 },
}
