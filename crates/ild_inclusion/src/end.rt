//! Ends of ways.
ghost use Rattle.std.specs.Prelude.{◌<◌, ◌+◌, ◌^◌, length};

use ild_cbor::Node;
use ild_data::Octets;

/// Where the way of a key ends: the value there, the number of the block in which it ends, and the blocks that are left.
#[derive(Clone, Copy)]
pub(crate) struct End<'b> {
    pub(crate) value: Option<Node<'b>>,
    pub(crate) at: usize,
    pub(crate) left: &'b [Octets],
    ghost few: { at + length left.now + 1 < 2 ^ 64 },
}
