//! The parts of one layer of a value by their places.
ghost use Rattle.std.specs.Prelude.{◌≡◌, ◌<◌, ℕ, Some, IfSome, option_map, slice_get};
ghost use Rattle.ild_schema.specs.declared.number.Slot.{Slot};
ghost use Rattle.ild_schema.specs.Value.{Value, pairs_list, optionals_list};
ghost use Rattle.ild_schema.specs.Table.{IsWithin};
ghost use Rattle.ild_schema.specs.ValueSeen.{value_of};
ghost use Rattle.ild_build.specs.PartAt.{field_at, in_slot, value_part_at, places};
ghost use Rattle.ild_typed.specs.Slots.{element_of, member_of, fields_of};

use ild_schema::{Field, Slot, TypeDef, Val, ValFields, ValPairs};

/// How many places for parts the layer has.
pub(crate) fn places(val: &Val) -> usize
    ensures { result ≡ places (value_of val.now) }
{
    match val {
        Val::List(vals) => vals.len(),
        Val::Map(pairs) => pairs.len(),
        Val::Struct(fields) => fields.len(),
        Val::Union(_, _) => 1,
        _ => 0,
    }
}

/// The slot of a list's elements, or of a map's values.
pub(crate) fn element_of(def: &TypeDef) -> Option<Slot>
    ensures same { result ≡ element_of (Some def.now) }
    ensures within { (n : ℕ) → IsWithin n def.now → IfSome result (λ s. s.ty.0 < n) }
{
    match def {
        TypeDef::List { elem, .. } => Some(*elem),
        TypeDef::Map { value, .. } => Some(*value),
        _ => None,
    }
}

/// The fields that a type declares: no type but a struct declares one.
pub(crate) fn fields_of(def: &TypeDef) -> &[Field]
    ensures { result.now ≡ fields_of (Some def.now) }
{
    match def {
        TypeDef::Struct(s) => s.fields.as_slice(),
        _ => &[],
    }
}

// The slot of the field at a place.
fn field_slot(def: &TypeDef, i: usize) -> Option<Slot>
    ensures same { result ≡ option_map (λ f. f.slot) (slice_get (fields_of (Some def.now)) i) }
    ensures within { (n : ℕ) → IsWithin n def.now → IfSome result (λ s. s.ty.0 < n) }
{
    match def {
        TypeDef::Struct(s) => match s.fields.get(i) {
            Some(field) => Some(field.slot),
            None => None,
        },
        _ => None,
    }
}

// The slot of the member with a number.
fn member_of(def: &TypeDef, number: u32) -> Option<Slot>
    ensures same { result ≡ member_of (Some def.now) number }
    ensures within { (n : ℕ) → IsWithin n def.now → IfSome result (λ s. s.ty.0 < n) }
{
    match def {
        TypeDef::Union(u) => match u.members.get(number as usize) {
            Some(member) => Some(Slot {
                ty: member.ty,
                nullable: false,
            }),
            None => None,
        },
        _ => None,
    }
}

// The value of the entry at a place.
fn entry_at(pairs: &ValPairs, i: usize) -> Option<&Val>
    ensures { option_map (λ v. value_of v.now) result ≡ option_map (λ p. p.1) (slice_get (pairs_list pairs.now) i) }
{
    match pairs.get(i) {
        Some(pair) => Some(&pair.1),
        None => None,
    }
}

/// The value of the field at a place, where it is not left out.
pub fn field_at(fields: &ValFields, i: usize) -> Option<&Val>
    ensures { option_map (λ v. value_of v.now) result ≡ field_at (optionals_list fields.now) i }
{
    match fields.get(i) {
        Some(Some(val)) => Some(val),
        Some(None) | None => None,
    }
}

// A part with its slot, where there are both.
fn in_slot(slot: Option<Slot>, val: Option<&Val>) -> Option<(Slot, &Val)>
    ensures same { option_map {U = Slot × Value} (λ p. (p.0, value_of p.1.now)) result ≡ in_slot slot (option_map (λ v. value_of v.now) val.entry) }
    ensures within { (n : ℕ) → IfSome slot (λ s. s.ty.0 < n) → IfSome result (λ p. p.0.ty.0 < n) }
{
    match (slot, val) {
        (Some(slot), Some(val)) => Some((slot, val)),
        _ => None,
    }
}

/// The part at a place, with the slot that the type gives to it; a field that is left out is none.
pub(crate) fn part_at<'v>(def: &TypeDef, val: &'v Val, i: usize) -> Option<(Slot, &'v Val)>
    ensures same { option_map {U = Slot × Value} (λ p. (p.0, value_of p.1.now)) result ≡ value_part_at (Some def.now) (value_of val.now) i }
    ensures within { (n : ℕ) → IsWithin n def.now → IfSome result (λ p. p.0.ty.0 < n) }
{
    match val {
        Val::List(vals) => in_slot(element_of(def), vals.get(i)),
        Val::Map(pairs) => in_slot(element_of(def), entry_at(pairs, i)),
        Val::Struct(fields) => in_slot(field_slot(def, i), field_at(fields, i)),
        Val::Union(number, part) => match i {
            0 => in_slot(member_of(def, *number), Some(part.get())),
            _ => None,
        },
        _ => None,
    }
}
