//! What may be set.
ghost use Rattle.std.specs.Prelude.{◌≡◌, Some, option_map};
ghost use Rattle.ild_path_rules.specs.Form.{field_named, member_called};
ghost use Rattle.ild_path_edits.specs.Table.{slot_to_set};
ghost use Rattle.ild_schema.specs.Slots.{form_of, plainly};
ghost use Rattle.ild_schema.specs.Value.{Value};
ghost use Rattle.ild_schema.specs.declared.def.TypeDef.TheVariants as D;
ghost use Rattle.ild_typed.specs.At.{seen};
ghost use Rattle.ild_view.specs.View.{IsView, slot_of, table_of};

use crate::form::{Form, form_of_view};
use crate::named::{field_named, member_called};
use crate::there::slot_there;
use ild_schema::{Slot, StructDef, UnionDef};
use ild_view::View;

// The slot of the field with a name.
fn field_slot(view: &View<'_>, def: &StructDef, name: &str) -> Option<Slot>
    ensures { form_of (table_of view.now) (slot_of view.now) ≡ Some (D.Struct def.now) → result ≡ option_map (λ f. f.slot) (field_named name.now def.now.fields) }
{
    match field_named(view, def, name) {
        Some(field) => Some(field.slot),
        None => None,
    }
}

// The slot of the member with a name.
fn member_slot(view: &View<'_>, def: &UnionDef, name: &str) -> Option<Slot>
    ensures { form_of (table_of view.now) (slot_of view.now) ≡ Some (D.Union def.now) → result ≡ option_map (λ m. plainly m.ty) (member_called name.now def.now.members) }
{
    match member_called(view, def, name) {
        Some(member) => Some(Slot {
            ty: member.ty,
            nullable: false,
        }),
        None => None,
    }
}

/// The slot of the part that may be set at a segment, there before or not: any field that the schema declares, any member of a union,
/// the value at any key, an element that is there. `None` where no part may be set: also in null, a scalar, a link, an enum or a unit,
/// and at the root of a HAMT. An Any is what its data are.
pub fn slot_to_set(view: &View<'_>, segment: &str) -> Option<Slot>
    ensures { (f : Value) → IsView view.now f → result ≡ slot_to_set (seen (table_of view.now) (slot_of view.now, f)) segment.now }
{
    match form_of_view(view) {
        Form::Fields(def) => field_slot(view, def, segment),
        Form::Member(def) => member_slot(view, def, segment),
        Form::Entries(_, slot) => Some(slot),
        Form::Elements(_) => slot_there(view, segment),
        Form::Nothing => None,
    }
}
