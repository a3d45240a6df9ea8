//! A row of the table of types.
use crate::TypeDef;
use ild_data::Txt;

/// Whence a type comes: every schema has it, the text declares it, or it stands inside a declaration.
#[derive(Clone, Copy)]
pub enum Origin {
    Prelude,
    Declared,
    Inline,
}

/// A type with its name and its place in the text. A member `&T` of a union has the name `&T`, every other inline type
/// the empty name.
#[derive(Drop)]
pub struct Row {
    pub def: TypeDef,
    pub name: Txt,
    pub at: usize,
    pub origin: Origin,
}

impl Origin {
    ghost use Rattle.std.specs.Prelude.{◌≡◌};
    ghost use Rattle.ild_schema.specs.Names.{is_open};

    /// Whether a text can name the type: it is no inline type.
    pub fn is_open(self) -> bool
        ensures { result ≡ is_open self }
    {
        match self {
            Origin::Prelude | Origin::Declared => true,
            Origin::Inline => false,
        }
    }
}
