//! Root blocks that name their schema, with their types.
ghost use Rattle.std.specs.Prelude.{◌<◌, length};
ghost use Rattle.ild_view_named.specs.NamedBlock.{HasNamed};

use ild_data::NamedBlock;
use ild_schema::{Accepted, TypeNo};

/// A root block that names its schema, checked against a type, with its id. It owns the block, and borrows the schema.
#[derive(Drop)]
pub struct NamedDoc<'s> {
    pub(crate) acc: &'s Accepted,
    pub(crate) ty: TypeNo,
    pub(crate) block: NamedBlock,
    ghost within: { ty.0 < length acc.now },
    ghost stands: { ∥ HasNamed acc.now ty block ∥₁ },
}
