//! The fields of a struct: the place of a name, and whether a value is the one for which its field is left out.
ghost use Rattle.std.specs.Prelude.{◌≡◌, ◌<◌, ◌≤◌, List, length, Some, IfSome, ℤ, Bool, Option, true};
ghost use Rattle.ild_data.specs.Data.{Data};
ghost use Rattle.ild_schema.specs.Clear.{AreNamesApart};
ghost use Rattle.ild_schema.specs.Marks.{field_text};
ghost use Rattle.ild_schema.specs.Table.{def_at};
ghost use Rattle.ild_schema.specs.declared.row.Row.{Row};
ghost use Rattle.ild_schema.specs.declared.def.TypeDef.TheVariants as D;
ghost use Rattle.ild_layer_piece.specs.Pieces.{StandsFor};
ghost use Rattle.ild_typed.specs.Fields.{is_implicit, is_scalar};
ghost use Rattle.ild_typed.specs.StructWhy.{place_of};
ghost use Rattle.ild_layer_fields.specs.Notes.{implicit_at};

use crate::notes::Notes;
use ild_cbor::Piece;
use ild_data::key_order;
use ild_layer_piece::{boolean, int, text};
use ild_schema::{Accepted, Field, Scalar, StructDef, TypeNo, text_of_field};

/// The fields of a struct, which is the type with a number in a table.
#[derive(Clone, Copy)]
pub struct Fields<'b> {
    /// The schema.
    pub acc: &'b Accepted,
    /// The number of the type.
    pub base: TypeNo,
    /// The struct that the type is.
    pub def: &'b StructDef,
    pub ghost within: { base.0 < length acc.now },
    pub ghost is: { def_at acc.now base.0 ≡ Some (D.Struct def.now) },
    pub ghost most: { length def.now.fields ≤ 1024 },
}

impl Fields<'_> {
    // The place of the field that has a name in a block, looked up, or the number of fields where none has it.
    fn look_up(&self, name: &str) -> usize
        ensures place { result ≡ place_of self.now.def.now.fields name.now }
        ensures within { result ≤ length self.now.def.now.fields }
    {
        match self.acc.part_spelled(self.base, name) {
            Some(place) => place,
            None => self.def.fields.len(),
        }
    }

    /// The place of the field that has a name in a block, or the number of fields where none has it. The fields at the
    /// guessed place and right behind it are asked first, and then, of few fields, those at the front.
    pub fn place(&self, name: &str, guess: usize) -> usize
        ensures place { AreNamesApart self.now.def.now.fields → result ≡ place_of self.now.def.now.fields name.now }
        ensures within { result ≤ length self.now.def.now.fields }
    {
        let fields = self.def.fields.as_slice();
        match place_near(fields, guess, name) {
            Some(place) => place,
            None => match place_near(fields, 0, name) {
                Some(place) => place,
                None => self.look_up(name),
            },
        }
    }

    // The same, where the guess may be wrong: the next few are asked, and then a name is searched among all.
    #[inline(never)]
    fn search_by_key(&self, name: &str, order: &[usize], guess: usize) -> (usize, usize)
        ensures place { AreNamesApart self.now.def.now.fields → result.0 ≡ place_of self.now.def.now.fields name.now }
        ensures within { result.0 ≤ length self.now.def.now.fields }
    {
        let fields = self.def.fields.as_slice();
        if let Some(found) = ordered_near(fields, order, guess, name) {
            return found;
        }
        let at = seat(fields, order, name);
        match named_in_order(fields, order, at, name) {
            Some(place) => (place, at.saturating_add(1)),
            None => (self.look_up(name), at),
        }
    }

    /// The same of a name in a map, and where in the key order the name behind it is guessed. The keys of a block's map rise,
    /// and so do the names of the fields in that order: the guessed one is asked first.
    #[inline(always)]
    pub fn place_by_key(&self, name: &str, order: &[usize], guess: usize) -> (usize, usize)
        ensures place { AreNamesApart self.now.def.now.fields → result.0 ≡ place_of self.now.def.now.fields name.now }
        ensures within { result.0 ≤ length self.now.def.now.fields }
    {
        let fields = self.def.fields.as_slice();
        match named_in_order(fields, order, guess, name) {
            Some(place) => (place, guess.saturating_add(1)),
            None => self.search_by_key(name, order, guess),
        }
    }

    /// The same, where it is noted which fields were met: those are asked last, since a field stands there once.
    pub(crate) fn place_left(&self, name: &str, notes: &Notes) -> usize
        ensures place { AreNamesApart self.now.def.now.fields → result ≡ place_of self.now.def.now.fields name.now }
        ensures within { result ≤ length self.now.def.now.fields }
    {
        let fields = self.def.fields.as_slice();
        match left_near(fields, notes, notes.next, name) {
            Some(place) => place,
            None => match left_near(fields, notes, 0, name) {
                Some(place) => place,
                None => self.look_up(name),
            },
        }
    }
}

/// How many fields are asked for a name one after another, before it is looked up.
const NEAR: usize = 8;

// The place of the field that has a name, where it is one of the next few.
fn place_near(fields: &[Field], from: usize, name: &str) -> Option<usize>
    ensures place { IfSome result (λ place. AreNamesApart fields.now → place ≡ place_of fields.now name.now) }
    ensures within { IfSome result (λ place. place < length fields.now) }
{
    for step in 0..NEAR {
        let place = from.saturating_add(step);
        if is_named(fields, place, name) {
            return Some(place);
        }
    }
    None
}

// The same, of fields that were not met.
fn left_near(fields: &[Field], notes: &Notes, from: usize, name: &str) -> Option<usize>
    ensures place { IfSome result (λ place. AreNamesApart fields.now → place ≡ place_of fields.now name.now) }
    ensures within { IfSome result (λ place. place < length fields.now) }
{
    for step in 0..NEAR {
        let place = from.saturating_add(step);
        if !notes.may_have_met(place) && is_named(fields, place, name) {
            return Some(place);
        }
    }
    None
}

// The place of the field that stands at a number in the key order, where it has a name.
fn named_in_order(fields: &[Field], order: &[usize], at: usize, name: &str) -> Option<usize>
    ensures place { IfSome result (λ place. AreNamesApart fields.now → place ≡ place_of fields.now name.now) }
    ensures within { IfSome result (λ place. place < length fields.now) }
{
    let place = *order.get(at)?;
    if is_named(fields, place, name) {
        return Some(place);
    }
    None
}

// The place of the field that has a name, where it is one of the next few in the key order, and the number behind its own.
fn ordered_near(
    fields: &[Field],
    order: &[usize],
    from: usize,
    name: &str,
) -> Option<(usize, usize)>
    ensures place { IfSome result (λ r. AreNamesApart fields.now → r.0 ≡ place_of fields.now name.now) }
    ensures within { IfSome result (λ r. r.0 < length fields.now) }
{
    for step in 0..NEAR {
        let at = from.saturating_add(step);
        if let Some(place) = named_in_order(fields, order, at, name) {
            return Some((place, at.saturating_add(1)));
        }
    }
    None
}

// Where a name would stand in the key order, for a guess: no contract depends on the answer.
fn seat(fields: &[Field], order: &[usize], name: &str) -> usize {
    match order.binary_search_by(|place| key_order(name_or_empty(fields, *place), name)) {
        Ok(at) => at,
        Err(at) => at,
    }
}

// The name of the field at a place in a block, or an empty one.
fn name_or_empty(fields: &[Field], place: usize) -> &str {
    match fields.get(place) {
        Some(field) => text_of_field(field),
        None => "",
    }
}

// Whether the field at a place has a name in a block.
fn is_named(fields: &[Field], place: usize, name: &str) -> bool
    ensures place { result ≡ true → AreNamesApart fields.now → place ≡ place_of fields.now name.now }
    ensures within { result ≡ true → place < length fields.now }
{
    match fields.get(place) {
        Some(field) => text_of_field(field) == name,
        None => false,
    }
}

// Whether the data are those of a scalar.
fn is_scalar(scalar: &Scalar, value: &Piece<'_>) -> bool
    ensures { (rows : List Row) (t : Data) → StandsFor rows value.now t → result ≡ is_scalar scalar.now t }
{
    match scalar {
        Scalar::Bool(wanted) => match boolean(value) {
            Some(found) => *wanted == found,
            None => false,
        },
        Scalar::Int(wanted) => match int(value) {
            Some(found) => wanted.get() == found.get(),
            None => false,
        },
        Scalar::Text(wanted) => match text(value) {
            Some(found) => wanted.as_str() == found,
            None => false,
        },
    }
}

/// Whether the data are those of the value that stands for a field where it is left out (IPLD Schemas, "implicit").
pub fn is_implicit(field: &Field, value: &Piece<'_>) -> bool
    ensures { (rows : List Row) (t : Data) → StandsFor rows value.now t → result ≡ is_implicit field.now.implicit t }
{
    match &field.implicit {
        Some(scalar) => is_scalar(scalar, value),
        None => false,
    }
}

/// Whether the data are those of the value that stands for the field at a place where it is left out.
pub(crate) fn is_implicit_at(fields: &[Field], place: usize, value: &Piece<'_>) -> bool
    ensures { (rows : List Row) (t : Data) → StandsFor rows value.now t → result ≡ implicit_at fields.now place t }
{
    match fields.get(place) {
        Some(field) => is_implicit(field, value),
        None => false,
    }
}
