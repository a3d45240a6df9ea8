//! What is found of a piece by itself.
use ild_cbor::Why;
use ild_layer_parts::Parts;

/// The parts of a piece, and how deep they may nest.
#[derive(Clone, Copy)]
pub(crate) struct Opening<'b> {
    pub(crate) parts: Parts<'b>,
    pub(crate) room: u32,
}

/// Why a piece isn't opened: the first cause, or want of memory.
#[derive(Clone, Copy)]
pub(crate) enum Stop {
    Why(Why),
    Memory,
}
