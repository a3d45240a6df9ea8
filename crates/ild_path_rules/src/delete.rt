//! What may be deleted.
ghost use Rattle.std.specs.Prelude.{◌≡◌, Some, false, option_map};
ghost use Rattle.std.specs.Option.{option_map_or};
ghost use Rattle.ild_path_rules.specs.Form.{field_named, may_go};
ghost use Rattle.ild_path_rules.specs.Refusal.{refusal, refusal_of};
ghost use Rattle.ild_path_edits.specs.Table.{refusal_to_delete};
ghost use Rattle.ild_schema.specs.Slots.{form_of};
ghost use Rattle.ild_schema.specs.Value.{Value};
ghost use Rattle.ild_schema.specs.declared.def.TypeDef.TheVariants as D;
ghost use Rattle.ild_typed.specs.At.{seen};
ghost use Rattle.ild_view.specs.View.{IsView, slot_of, table_of};

use crate::form::{Form, form_of_view};
use crate::named::field_named;
use crate::there::is_there;
use ild_schema::StructDef;
use ild_view::View;

/// Why nothing may be done at a segment.
#[derive(Clone, Copy, Debug, PartialEq, Eq)]
pub enum Refusal {
    /// No part is there, or none may come there.
    Path,
    /// What is there can't be deleted, since its holder can't be without it: it is a field that isn't optional, or the member of a union.
    Mismatch,
}

// Whether the field with a name may be absent.
fn is_optional(view: &View<'_>, def: &StructDef, name: &str) -> bool
    ensures { form_of (table_of view.now) (slot_of view.now) ≡ Some (D.Struct def.now) → result ≡ option_map_or (λ f. f.optional) (field_named name.now def.now.fields) false }
{
    match field_named(view, def, name) {
        Some(field) => field.optional,
        None => false,
    }
}

// Whether the holder at a view can be without the part at a segment.
fn may_go(view: &View<'_>, segment: &str) -> bool
    ensures { (f : Value) → IsView view.now f → result ≡ may_go (seen (table_of view.now) (slot_of view.now, f)) segment.now }
{
    match form_of_view(view) {
        Form::Fields(def) => is_optional(view, def, segment),
        Form::Member(_) => false,
        Form::Entries(_, _) => true,
        Form::Elements(_) => true,
        Form::Nothing => true,
    }
}

// Why a part can't be deleted, by whether it is there and whether its holder can be without it.
fn fault(there: bool, free: bool) -> Option<Refusal>
    ensures { option_map refusal_of result ≡ refusal there free }
{
    match (there, free) {
        (false, false) => Some(Refusal::Path),
        (false, true) => Some(Refusal::Path),
        (true, false) => Some(Refusal::Mismatch),
        (true, true) => None,
    }
}

/// Why the part at a segment can't be deleted, or `None` where it can: an optional field, an entry or an element that is there. `Path`
/// where no part is there, as in null, a scalar, a link, an enum or a unit, and at the root of a HAMT; `Mismatch` at another field
/// that is present, and at the member that a union holds. An Any is what its data are.
pub fn refusal_to_delete(view: &View<'_>, segment: &str) -> Option<Refusal>
    ensures { (f : Value) → IsView view.now f → option_map refusal_of result ≡ refusal_to_delete (seen (table_of view.now) (slot_of view.now, f)) segment.now }
{
    fault(is_there(view, segment), may_go(view, segment))
}
