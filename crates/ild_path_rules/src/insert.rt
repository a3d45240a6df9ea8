//! What may be inserted.
ghost use Rattle.std.specs.Prelude.{◌≡◌, None, Some, codes, cond, is_some, option_and_then, ℕ};
ghost use Rattle.ild_path_rules.specs.Form.{field_named, left_out};
ghost use Rattle.ild_data.specs.Key.{same_text};
ghost use Rattle.ild_path_edits.specs.Table.{new_index, slot_to_insert};
ghost use Rattle.ild_schema.specs.Slots.{form_of};
ghost use Rattle.ild_schema.specs.Value.{Value};
ghost use Rattle.ild_schema.specs.declared.def.TypeDef.TheVariants as D;
ghost use Rattle.ild_typed.specs.At.{seen};
ghost use Rattle.ild_view.specs.Counted.{count_in};
ghost use Rattle.ild_view.specs.View.{IsView, slot_of, table_of};

use crate::form::{Form, form_of_view};
use crate::named::field_named;
use crate::there::is_there;
use ild_schema::{Slot, StructDef};
use ild_view::{View, index};

// A slot, if a test says so.
fn slot_if(slot: Slot, test: bool) -> Option<Slot>
    ensures { result ≡ cond test (Some slot) None }
{
    if test { Some(slot) } else { None }
}

// The slot of the field with a name, where it is optional and not there.
fn field_left_out(view: &View<'_>, def: &StructDef, name: &str, there: bool) -> Option<Slot>
    ensures { form_of (table_of view.now) (slot_of view.now) ≡ Some (D.Struct def.now) → result ≡ option_and_then (left_out there) (field_named name.now def.now.fields) }
{
    match field_named(view, def, name) {
        Some(field) => slot_if(field.slot, !there & field.optional),
        None => None,
    }
}

// Whether a segment stands for the end of a list.
fn is_end(segment: &str) -> bool
    ensures { result ≡ same_text segment.now (codes "-") }
{
    segment == "-"
}

// Whether a new element may come at a segment into a list of so many: at an index up to the end, or at the end.
fn is_new_index(count: u64, segment: &str) -> bool
    ensures { result ≡ is_some (new_index count segment.now) }
{
    if is_end(segment) {
        return true;
    }
    match index(segment) {
        Some(i) => i <= count,
        None => false,
    }
}

// Whether a new element may come at a segment into the list at a view.
fn is_place(view: &View<'_>, segment: &str) -> bool
    ensures { (f : Value) (n : ℕ) → IsView view.now f → count_in (seen (table_of view.now) (slot_of view.now, f)) ≡ Some n → result ≡ is_some (new_index n segment.now) }
{
    match view.len() {
        Some(count) => is_new_index(count, segment),
        None => false,
    }
}

/// The slot of the part that may come at a segment where there is none: an optional field that is absent, the value at a key that is
/// not there, an element at an index up to the length or, for `-`, at the end. `None` where no part may come: also in a union, null, a
/// scalar, a link, an enum or a unit, and at the root of a HAMT. An Any is what its data are.
pub fn slot_to_insert(view: &View<'_>, segment: &str) -> Option<Slot>
    ensures { (f : Value) → IsView view.now f → result ≡ slot_to_insert (seen (table_of view.now) (slot_of view.now, f)) segment.now }
{
    match form_of_view(view) {
        Form::Fields(def) => field_left_out(view, def, segment, is_there(view, segment)),
        Form::Entries(_, slot) => slot_if(slot, !is_there(view, segment)),
        Form::Elements(slot) => slot_if(slot, is_place(view, segment)),
        Form::Member(_) => None,
        Form::Nothing => None,
    }
}
