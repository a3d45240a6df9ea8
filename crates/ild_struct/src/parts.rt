//! The fields of a struct that were found in a block.
ghost use Rattle.ild_struct.specs.Source.{IsSourced};

use crate::source::Source;
use ild_layer_fields::Fields;

/// The fields of a struct in a block: borrows of the schema and of the block, with no memory of their own.
#[derive(Clone, Copy)]
pub struct StructParts<'b> {
    pub(crate) fields: Fields<'b>,
    pub(crate) source: Source<'b>,
    pub(crate) told: bool,
    ghost sourced: { IsSourced fields.acc.now source },
}
