//! The places of pairs among those of a text.
ghost use Rattle.std.specs.Prelude.{◌≡◌, ◌<◌, Some, is_some, length, option_map, slice_get};
ghost use Rattle.ild_data.specs.Key.{value_at};
ghost use Rattle.ild_path_changes.specs.Places.{place_of};
ghost use Rattle.ild_path_pairs.specs.inside.Seats.{behind_first, count_behind, is_first, left_behind};
ghost use Rattle.ild_schema.specs.Marks.{field_text};
ghost use Rattle.ild_schema.specs.declared.def.Field.{Field as Declared};
ghost use Rattle.ild_text.specs.Parts.{pairs_in};

use ild_schema::{Field, text_of_field};
use ild_text::PairParts;

/// Where the pair of a key stands, or would stand.
#[derive(Clone, Copy)]
pub(crate) struct Seat {
    pub(crate) place: usize,
    pub(crate) there: bool,
}

/// The place of the pair with a key, or behind all pairs.
pub(crate) fn key_seat(split: PairParts<'_>, key: &str) -> Seat
    ensures place { result.place ≡ place_of key.now (pairs_in split.entry) }
    ensures there { result.there ≡ is_some (value_at key.now (pairs_in split.entry)) }
{
    let _count = split.len();
    let mut left = split;
    let mut place: usize = 0;
    while let Some(((name, _), behind)) = left.split_first() {
        if key == name {
            return Seat { place, there: true };
        }
        left = behind;
        place += 1;
    }
    Seat {
        place,
        there: false,
    }
}

// The pairs behind the first one, where that has this key.
fn behind<'b>(split: &PairParts<'b>, key: &str) -> Option<PairParts<'b>>
    ensures { option_map pairs_in result ≡ behind_first key.now (pairs_in split.now) }
{
    let ((name, _), left) = split.split_first()?;
    if key == name { Some(left) } else { None }
}

/// The place of the pair of the field with a number, among those of the fields in their order.
pub(crate) fn field_seat(split: PairParts<'_>, fields: &[Field], number: usize) -> Seat
    requires { number < length fields.now }
    ensures place { result.place ≡ count_behind fields.now number (pairs_in split.entry) }
    ensures there { (g : Declared) → slice_get fields.now number ≡ Some g → result.there ≡ is_first (field_text g) (left_behind fields.now number (pairs_in split.entry)) }
{
    let mut left = split;
    let mut place: usize = 0;
    let mut i = 0;
    while i < number {
        let name = text_of_field(&fields[i]);
        i += 1;
        let Some(next) = behind(&left, name) else {
            continue;
        };
        left = next;
        place += 1;
    }
    match behind(&left, text_of_field(&fields[number])) {
        Some(_) => Seat { place, there: true },
        None => Seat {
            place,
            there: false,
        },
    }
}
