//! How many levels a holder takes.
ghost use Rattle.std.specs.Prelude.{◌≡◌, Some, length};
ghost use Rattle.ild_path_edits.specs.Along.{taken};
ghost use Rattle.ild_schema.specs.Slots.{form_of};
ghost use Rattle.ild_schema.specs.Table.{IsWithin};
ghost use Rattle.ild_typed.specs.Levels.{map_levels, struct_levels};
ghost use Rattle.ild_view.specs.View.{slot_of, table_of};

use ild_schema::{MapForm, StructForm, TypeDef};
use ild_view::View;

fn map_levels(form: &MapForm) -> u32
    ensures { result ≡ map_levels form.now }
{
    match form {
        MapForm::Map | MapForm::StringPairs(_, _) => 1,
        MapForm::ListPairs => 2,
        MapForm::Hamt(_) => 5,
    }
}

fn struct_levels(form: &StructForm) -> u32
    ensures { result ≡ struct_levels form.now }
{
    match form {
        StructForm::ListPairs => 2,
        _ => 1,
    }
}

// How many levels a form takes of the room of its parts: inside an Any one.
fn taken(def: &TypeDef) -> u32
    ensures { result ≡ taken (Some def.now) }
{
    match def {
        TypeDef::Any | TypeDef::Unit(_) | TypeDef::List { .. } | TypeDef::Union(_) => 1,
        TypeDef::Map { form, .. } => map_levels(form),
        TypeDef::Struct(s) => struct_levels(&s.form),
        _ => 0,
    }
}

/// What the schema says of a view's type, copies followed.
pub(crate) fn form_of<'b>(view: &View<'b>) -> &'b TypeDef
    ensures same { form_of (table_of view.now) (slot_of view.now) ≡ Some result.now }
    ensures within { IsWithin (length (table_of view.now)) result.now }
{
    let acc = view.schema();
    acc.def(acc.base(view.slot().ty))
}

/// How many levels a view's value takes of the room of its parts.
pub fn levels(view: &View<'_>) -> u32
    ensures { result ≡ taken (form_of (table_of view.now) (slot_of view.now)) }
{
    taken(form_of(view))
}
