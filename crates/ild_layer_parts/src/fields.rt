//! The fields of a struct as parts.
ghost use Rattle.std.specs.Prelude.{◌≡◌, length};
ghost use Rattle.ild_struct.specs.Parts.{fields_of};

use ild_schema::StructDef;
use ild_struct::StructParts;

/// The fields of a struct from one on.
#[derive(Clone, Copy)]
pub struct Fields<'b> {
    pub(crate) def: &'b StructDef,
    pub(crate) parts: StructParts<'b>,
    pub(crate) next: usize,
    ghost same: { length (fields_of parts) ≡ length def.now.fields },
}
