//! Pairs in a list, by their keys.
ghost use Rattle.std.specs.Prelude.{◌<◌, ℕ, List, Option, Some, length};
ghost use Rattle.ild_data.specs.Data.{Data};
ghost use Rattle.ild_path_last.specs.inside.Seats.{ChangesAtKey, ChangesPair, FindsField, SeatIsBehind};
ghost use Rattle.ild_path_steps.specs.Seats.{HasPairs};
ghost use Rattle.ild_layer_piece.specs.Pieces.{StandsFor};
ghost use Rattle.ild_schema.specs.declared.row.Row.{Row};

use crate::between::pair_change;
use crate::change::LastChange;
use ild_cbor::{Items, Piece};
use ild_layer_piece::items;
use ild_path_steps::{Seat, is_keyed, key_seat};
use ild_schema::{Field, text_of_field};

/// The change of the pair at a key, in a map that is a list of pairs.
pub(crate) fn key_pair_change<'a>(piece: &Piece<'_>, key: &'a str, after: bool) -> LastChange<'a>
    ensures { (rows : List Row) → ChangesAtKey (StandsFor rows piece.now) key.now after result }
{
    match items(piece) {
        Some(items) => {
            let seat = key_seat(items, key);
            pair_change(seat.place, key, seat.there, after)
        }
        None => LastChange::Nothing,
    }
}

// The pairs behind the first one, where that has this key.
fn behind<'b>(items: Items<'b>, key: &str) -> Option<Items<'b>>
    ensures { (es : List (List ℕ × Data)) → HasPairs items.entry es → SeatIsBehind key.now es result }
{
    let mut left = items;
    match left.next() {
        Some(item) => {
            if is_keyed(&item, key) {
                Some(left)
            } else {
                None
            }
        }
        None => None,
    }
}

// The place of the pair of the field with a number, among those of the fields in their order.
fn field_seat(items: Items<'_>, fields: &[Field], number: usize) -> Seat
    requires { number < length fields.now }
    ensures { FindsField items.entry fields.now number result }
{
    let mut left = items;
    let mut place: u64 = 0;
    let mut i = 0;
    while i < number {
        let name = text_of_field(&fields[i]);
        i += 1;
        let Some(next) = behind(left, name) else {
            continue;
        };
        left = next;
        place = place.saturating_add(1);
    }
    match behind(left, text_of_field(&fields[number])) {
        Some(_) => Seat { place, there: true },
        None => Seat {
            place,
            there: false,
        },
    }
}

/// The change of the pair of the field with a number, in a struct that is a list of pairs.
pub(crate) fn field_pair_change<'a>(
    piece: &Piece<'_>,
    fields: &'a [Field],
    number: usize,
    after: bool,
) -> LastChange<'a>
    requires { number < length fields.now }
    ensures { (rows : List Row) → ChangesPair (StandsFor rows piece.now) fields.now number after result }
{
    match items(piece) {
        Some(items) => {
            let seat = field_seat(items, fields, number);
            let name = text_of_field(&fields[number]);
            pair_change(seat.place, name, seat.there, after)
        }
        None => LastChange::Nothing,
    }
}
