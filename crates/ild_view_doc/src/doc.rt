//! Root blocks with their types.
ghost use Rattle.std.specs.Prelude.{◌<◌, length};
ghost use Rattle.ild_view_doc.specs.Block.{HasRoot};

use ild_data::NamedBlock;
use ild_schema::{Accepted, TypeNo};

/// A root block that was checked against a type, with its id. It owns the block, and borrows the schema.
#[derive(Drop)]
pub struct Doc<'s> {
    pub(crate) acc: &'s Accepted,
    pub(crate) ty: TypeNo,
    pub(crate) block: NamedBlock,
    ghost within: { ty.0 < length acc.now },
    ghost stands: { ∥ HasRoot acc.now ty block ∥₁ },
}
