//! The text of pairs of which one changes.
ghost use Rattle.std.specs.Prelude.{◌≡◌, ◌<◌, Some, length, option_map};
ghost use Rattle.ild_data.specs.Data as T;
ghost use Rattle.ild_path_changes.specs.Places.{left_out, written};
ghost use Rattle.ild_path_pairs.specs.Pairs.{ChangesPair, ReadsPairs, TellsMap, TellsPair, TellsStruct, borrowed_text};

use crate::place::{Seat, field_seat, key_seat};
use ild_cbor::Piece;
use ild_data::Txt;
use ild_layer_fields::is_implicit;
use ild_path_text::{PairChange, change_pair};
use ild_schema::{Field, text_of_field};
use ild_text::{PairParts, pairs, pairs_are_one};
use ild_typed::pairs_are_pairs;
use std::alloc::{AllocError, Global};

/// A text of pairs, the delimiter inside a pair and that between the pairs.
#[derive(Clone, Copy)]
pub(crate) struct Joined<'b> {
    pub(crate) text: &'b str,
    pub(crate) inner: &'b str,
    pub(crate) entry: &'b str,
    ghost inner_some: { 0 < length inner.now },
    ghost entry_some: { 0 < length entry.now },
}

// The pairs of the text.
fn split<'b>(joined: &Joined<'b>) -> Option<PairParts<'b>>
    ensures { ReadsPairs joined.now.inner.now joined.now.entry.now joined.now.text.now result }
{
    // They do no work: their clauses say that a text is joined of one list of pairs.
    pairs_are_pairs();
    pairs_are_one();
    match pairs(joined.text, joined.inner, joined.entry) {
        Ok(split) => Some(split),
        Err(_) => None,
    }
}

// The change of the pair at a seat, which has a new value or goes.
fn pair_change<'a>(seat: Seat, key: &'a str, new: Option<&'a str>) -> Option<PairChange<'a>>
    ensures { ChangesPair seat key.now (borrowed_text new.entry) result }
{
    let place = seat.place;
    match (seat.there, new) {
        (false, None) => None,
        (false, Some(new)) => Some(PairChange::Insert { place, key, new }),
        (true, None) => Some(PairChange::Delete { place }),
        (true, Some(new)) => Some(PairChange::Set { place, new }),
    }
}

// The text of the pairs of which that at a seat has a new value or goes.
fn with_pair(
    alloc: Global,
    joined: &Joined<'_>,
    seat: Seat,
    key: &str,
    new: Option<&str>,
) -> Result<Option<Txt>, AllocError>
    ensures { TellsPair joined.now.inner.now joined.now.entry.now joined.now.text.now seat key.now (option_map T.text (borrowed_text new.entry)) result }
{
    match pair_change(seat, key, new) {
        Some(change) => change_pair(alloc, joined.text, joined.inner, joined.entry, change),
        None => {
            let text = Txt::of(alloc, joined.text)?;
            Ok(Some(text))
        }
    }
}

/// The text of a map, with a new value at a key or without one: a new key comes behind the others.
pub(crate) fn map_text(
    alloc: Global,
    joined: &Joined<'_>,
    key: &str,
    new: Option<&str>,
) -> Result<Option<Txt>, AllocError>
    ensures { TellsMap joined.now.inner.now joined.now.entry.now joined.now.text.now key.now (borrowed_text new.entry) result }
{
    match split(joined) {
        Some(split) => with_pair(alloc, joined, key_seat(split, key), key, new),
        None => Ok(None),
    }
}

// The new part, where it is written.
fn written<'n>(field: &Field, new: Option<&'n str>) -> Option<&'n str>
    ensures { option_map T.text (borrowed_text result) ≡ written left_out field.now (option_map T.text (borrowed_text new.entry)) }
{
    let text = new?;
    let implicit = is_implicit(field, &Piece::Text(text));
    if implicit { None } else { Some(text) }
}

/// The text of a struct, of which the field with a number has a new value or goes: an implicit value is not written.
pub(crate) fn struct_text(
    alloc: Global,
    joined: &Joined<'_>,
    fields: &[Field],
    number: usize,
    new: Option<&str>,
) -> Result<Option<Txt>, AllocError>
    requires { number < length fields.now }
    ensures { TellsStruct joined.now.inner.now joined.now.entry.now joined.now.text.now fields.now number (borrowed_text new.entry) result }
{
    let field = &fields[number];
    match split(joined) {
        Some(split) => {
            let seat = field_seat(split, fields, number);
            with_pair(
                alloc,
                joined,
                seat,
                text_of_field(field),
                written(field, new),
            )
        }
        None => Ok(None),
    }
}
