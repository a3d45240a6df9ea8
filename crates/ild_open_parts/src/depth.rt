//! How many levels of lists and maps a type takes around its parts.
ghost use Rattle.std.specs.Prelude.{◌≡◌};
ghost use Rattle.ild_typed.specs.Levels.{map_levels, struct_levels};
ghost use Rattle.ild_open_parts.specs.Around.{levels_around};

use ild_schema::{MapForm, StructForm, TypeDef};

// The levels of a map.
fn map_levels(form: &MapForm) -> u32
    ensures { result ≡ map_levels form.now }
{
    match form {
        MapForm::Map | MapForm::StringPairs(_, _) => 1,
        MapForm::ListPairs => 2,
        MapForm::Hamt(_) => 5,
    }
}

// The levels of a struct.
fn struct_levels(form: &StructForm) -> u32
    ensures { result ≡ struct_levels form.now }
{
    match form {
        StructForm::Map
        | StructForm::Tuple
        | StructForm::StringPairs(_, _)
        | StructForm::StringJoin(_) => 1,
        StructForm::ListPairs => 2,
    }
}

/// The levels of a type, and none of one whose values have no parts.
pub fn levels(def: &TypeDef) -> u32
    ensures { result ≡ levels_around def.now }
{
    match def {
        TypeDef::List { .. } | TypeDef::Union(_) => 1,
        TypeDef::Map { form, .. } => map_levels(form),
        TypeDef::Struct(def) => struct_levels(&def.form),
        _ => 0,
    }
}
