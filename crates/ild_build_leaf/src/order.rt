//! Which fields of a struct are written, how many of them, and how many before a key.
ghost use Rattle.std.specs.Prelude.{◌≡◌, ◌≤◌, ◌<◌, false, get_or, length, option_map, take, true};
ghost use Rattle.std.specs.List.{AllByRecursion};
ghost use Rattle.ild_schema.specs.Value.{optionals_list};
ghost use Rattle.ild_schema.specs.ValueSeen.{value_of};
ghost use Rattle.ild_build_leaf.specs.Kept.{count_present, count_written, is_before, kept_at};

use ild_build::{field_at, is_left_out};
use ild_data::key_less;
use ild_schema::{Field, Fields, Val, ValFields, text_of_field};

/// How many values are there.
pub fn present(vals: &ValFields) -> usize
    ensures { result ≡ count_present (optionals_list vals.now) }
{
    let mut count = 0;
    for i in 0..vals.len() {
        let Some(_) = field_at(vals, i) else {
            continue;
        };
        count += 1;
    }
    count
}

/// The value of a field at a place, where it is written: one is there, and isn't left out.
#[inline(always)]
pub fn kept_at<'v>(field: &Field, vals: &'v ValFields, place: usize) -> Option<&'v Val>
    ensures { option_map (λ v. value_of v.now) result ≡ kept_at field.now (optionals_list vals.now) place }
{
    let Some(val) = field_at(vals, place) else {
        return None;
    };
    if is_left_out(field, val) {
        None
    } else {
        Some(val)
    }
}

/// How many fields are there and not left out.
pub fn written(fields: &Fields, vals: &ValFields) -> usize
    ensures { result ≡ count_written fields.now (optionals_list vals.now) }
{
    let mut count = 0;
    for (i, field) in fields.as_slice().iter().enumerate() {
        let Some(_) = kept_at(field, vals, i) else {
            continue;
        };
        count += 1;
    }
    count
}

/// How many of the places, from the first on, have names before a key.
pub fn count_before(fields: &Fields, key: &str, places: &[usize]) -> usize
    ensures bound { result ≤ length places.now }
    ensures before { AllByRecursion (λ i. is_before fields.now key.now i ≡ true) (take result places.now) }
    ensures next { result < length places.now → is_before fields.now key.now (get_or places.now result 0) ≡ false }
{
    for i in 0..places.len() {
        if !is_before(fields, key, places[i]) {
            return i;
        }
    }
    places.len()
}

// Whether the name at a place comes before a key; past the fields it does.
fn is_before(fields: &Fields, key: &str, place: usize) -> bool
    ensures { result ≡ is_before fields.now key.now place }
{
    match fields.get(place) {
        Some(field) => key_less(text_of_field(field), key),
        None => true,
    }
}
