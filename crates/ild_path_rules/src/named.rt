//! The type of a view, and its fields and members by their names.
ghost use Rattle.std.specs.Prelude.{◌≡◌, Some, length, option_and_then, option_map, slice_get};
ghost use Rattle.ild_path_rules.specs.Form.{field_named, member_called};
ghost use Rattle.ild_schema.specs.Parts.{part_named};
ghost use Rattle.ild_schema.specs.Slots.{form_of};
ghost use Rattle.ild_schema.specs.Table.{IsWithin};
ghost use Rattle.ild_schema.specs.declared.def.TypeDef.TheVariants as D;
ghost use Rattle.ild_view.specs.View.{slot_of, table_of};

use ild_schema::{Field, Member, StructDef, TypeDef, UnionDef};
use ild_view::View;

/// What the schema says of the type, copies followed.
pub(crate) fn def_of<'b>(view: &View<'b>) -> &'b TypeDef
    ensures same { form_of (table_of view.now) (slot_of view.now) ≡ Some result.now }
    ensures within { IsWithin (length (table_of view.now)) result.now }
{
    let acc = view.schema();
    acc.def(acc.base(view.slot().ty))
}

// The number of the first field or member with a name.
fn number_of(view: &View<'_>, name: &str) -> Option<usize>
    ensures { result ≡ option_and_then (part_named name.now) (form_of (table_of view.now) (slot_of view.now)) }
{
    let acc = view.schema();
    acc.part_named(acc.base(view.slot().ty), name)
}

// The field with a number.
fn field_at(fields: &[Field], number: usize) -> Option<&Field>
    ensures { option_map (λ f. f.now) result ≡ slice_get fields.now number }
{
    match fields.get(number) {
        Some(field) => Some(field),
        None => None,
    }
}

// The member with a number.
fn member_at(members: &[Member], number: usize) -> Option<&Member>
    ensures { option_map (λ m. m.now) result ≡ slice_get members.now number }
{
    match members.get(number) {
        Some(member) => Some(member),
        None => None,
    }
}

/// The first field of a struct with a name.
pub(crate) fn field_named<'b>(view: &View<'b>, def: &'b StructDef, name: &str) -> Option<&'b Field>
    ensures { form_of (table_of view.now) (slot_of view.now) ≡ Some (D.Struct def.now) → option_map (λ f. f.now) result ≡ field_named name.now def.now.fields }
{
    match number_of(view, name) {
        Some(number) => field_at(def.fields.as_slice(), number),
        None => None,
    }
}

/// The first member of a union with a name.
pub(crate) fn member_called<'b>(
    view: &View<'b>,
    def: &'b UnionDef,
    name: &str,
) -> Option<&'b Member>
    ensures { form_of (table_of view.now) (slot_of view.now) ≡ Some (D.Union def.now) → option_map (λ m. m.now) result ≡ member_called name.now def.now.members }
{
    match number_of(view, name) {
        Some(number) => member_at(def.members.as_slice(), number),
        None => None,
    }
}
