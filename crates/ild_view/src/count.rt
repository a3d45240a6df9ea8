//! How many parts a value has.
ghost use Rattle.std.specs.Prelude.{◌≡◌, ◌<◌, ◌≤◌, ◌^◌, List, Option, length, true, ℕ};
ghost use Rattle.ild_cbor.specs.Scalar.{count_of};
ghost use Rattle.ild_data.specs.Data.{Data};
ghost use Rattle.ild_view_entries.specs.Forms.{FormCount, MapDelims, ShowsMap};
ghost use Rattle.ild_schema.specs.Value.{Value};
ghost use Rattle.ild_schema.specs.declared.row.Row.{Row};
ghost use Rattle.ild_struct.specs.Parts.{ArePartsOf, fields_of};
ghost use Rattle.ild_struct.specs.Present.{HasPresent};
ghost use Rattle.ild_typed.specs.At.{seen};
ghost use Rattle.ild_view.specs.Body.{BodyStands, is_free};
ghost use Rattle.ild_view.specs.Counted.{MayLack, count_in, is_optional_at, optional_of, present_of, required_of};

use crate::body::Body;
use crate::view::View;
use ild_schema::{Field, MapForm, TypeDef};
use ild_struct::{Present, StructParts, layer};
use ild_view_entries::{form_count, parts_count};

impl<'b> Body<'b> {
    /// How many parts a list or a map has, or `None` where it is something else.
    pub(crate) fn count(&self) -> Option<u64>
        ensures { (rows : List Row) (t : Data) → is_free self.now ≡ true → BodyStands rows self.now t → result ≡ count_of t }
    {
        match self {
            Body::Held(piece) => parts_count(piece),
            Body::Implicit(_) => None,
        }
    }
}

// How many fields have to be there.
fn required(fields: &[Field]) -> u64
    requires { length fields.now ≤ 1024 }
    ensures { result ≡ required_of fields.now }
{
    let mut count: u64 = 0;
    let mut rest = fields;
    while let Some((field, behind)) = rest.split_first() {
        rest = behind;
        if field.optional {
            continue;
        }
        count += 1;
    }
    count
}

// Whether the field with a number may be left out.
fn is_optional(fields: &[Field], number: usize) -> bool
    ensures { result ≡ is_optional_at fields.now number }
{
    match fields.get(number) {
        Some(field) => field.optional,
        None => false,
    }
}

// How many of the parts that are written are of optional fields.
fn optional_written(fields: &[Field], present: Present<'_>) -> u64
    ensures { (xs : List (ℕ × Data)) → HasPresent present.entry xs → optional_of fields.now xs < 2 ^ 64 → result ≡ optional_of fields.now xs }
{
    let mut count: u64 = 0;
    let mut left = present;
    while let Some((number, _)) = left.next() {
        if !is_optional(fields, number) {
            continue;
        }
        count = count.saturating_add(1);
    }
    count
}

// How many fields of a struct are present.
fn present_count(fields: &[Field], parts: &StructParts<'_>) -> u64
    requires { fields_of parts.now ≡ fields.now }
    ensures { (rows : List Row) (ty : ℕ) (t : Data) (os : List (Option Data)) → ArePartsOf rows ty t os parts.now → MayLack fields.now os → result ≡ present_of os }
{
    required(fields).saturating_add(optional_written(fields, parts.present()))
}

impl<'b> View<'b> {
    ghost use Rattle.ild_view.specs.View.{IsView, body_of, slot_of, table_of};

    // How many entries a map of a form has.
    fn map_count(&self, form: &'b MapForm) -> Option<u64>
        requires { MapDelims form.now }
        ensures { (t : Data) (es : List (List ℕ × Data)) → is_free (body_of self.now) ≡ true
            → BodyStands (table_of self.now) (body_of self.now) t → ShowsMap form.now es t → FormCount form.now es result }
    {
        match self.body {
            Body::Held(piece) => form_count(form, &piece),
            Body::Implicit(_) => None,
        }
    }

    /// How many fields of a struct are present, how many entries a map has, or how many elements a list. It is `None` for all
    /// else, and for a HAMT. An Any is what its data are. A field that is left out since it has its implicit value is present.
    pub fn len(&self) -> Option<u64>
        ensures { (f : Value) → IsView self.now f → result ≡ count_in (seen (table_of self.now) (slot_of self.now, f)) }
    {
        self.acc.recall();
        if self.is_null_there() {
            return None;
        }
        match self.def() {
            TypeDef::List { .. } => self.body.count(),
            TypeDef::Any => self.body.count(),
            TypeDef::Map { form, .. } => self.map_count(form),
            TypeDef::Struct(def) => match self.body {
                Body::Held(piece) => match layer(self.acc, self.slot.ty, piece) {
                    Ok(parts) => Some(present_count(def.fields.as_slice(), &parts)),
                    Err(_) => None,
                },
                Body::Implicit(_) => None,
            },
            _ => None,
        }
    }
}
