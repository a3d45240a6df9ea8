//! The parts of a struct that are written, in the order of the data.
use crate::left::Left;
use ild_layer_fields::Fields;

/// An iterator over the parts of a struct that are written in a block, in the order of the block, each with the number of its
/// field. It walks the block once.
#[derive(Clone, Copy)]
pub struct Present<'b> {
    pub(crate) fields: Fields<'b>,
    pub(crate) left: Left<'b>,
    pub(crate) next: usize,
}
