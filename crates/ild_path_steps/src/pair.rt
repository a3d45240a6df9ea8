//! Pairs in a list.
ghost use Rattle.std.specs.Prelude.{◌≡◌, ℕ, List, Some};
ghost use Rattle.ild_cbor.specs.Nodes.{HasData};
ghost use Rattle.ild_data.specs.Data.{Data};
ghost use Rattle.ild_data.specs.Key.{same_text, value_at};
ghost use Rattle.ild_path_changes.specs.Places.{place_of};
ghost use Rattle.ild_layer_piece.specs.Pieces.{StandsFor};
ghost use Rattle.ild_schema.specs.declared.row.Row.{Row};
ghost use Rattle.ild_path_steps.specs.Seats.{HasPairs, IsSeat};
ghost use Rattle.ild_path_steps.specs.declared.steps.PartSteps.TheVariants as P;
ghost use Rattle.ild_typed.specs.Strings.{listpairs, pair_data};

use crate::steps::PartSteps;
use ild_cbor::{Items, Node, Piece};
use ild_layer_piece::items;

/// Whether the key of a pair is this one.
pub fn is_keyed(item: &Node<'_>, key: &str) -> bool
    ensures { (e : List ℕ × Data) → HasData item.now (pair_data e) → result ≡ same_text key.now e.0 }
{
    match item.item(0) {
        Some(first) => match first.text() {
            Some(name) => key == name,
            None => false,
        },
        None => false,
    }
}

/// Where the pair with a key stands in a list of pairs, or would stand.
#[derive(Clone, Copy)]
pub struct Seat {
    /// How many pairs stand before it.
    pub place: u64,
    /// Whether there is one.
    pub there: bool,
}

/// The place of the pair with a key, or behind all pairs.
pub fn key_seat(items: Items<'_>, key: &str) -> Seat
    ensures { (es : List (List ℕ × Data)) → HasPairs items.entry es → IsSeat result (place_of key.now es) (value_at key.now es) }
{
    let mut left = items;
    let mut place: u64 = 0;
    while let Some(item) = left.next() {
        if is_keyed(&item, key) {
            return Seat { place, there: true };
        }
        place = place.saturating_add(1);
    }
    Seat {
        place,
        there: false,
    }
}

/// The steps to the value at a key, in a list of pairs.
pub(crate) fn pair_steps<'a>(piece: &Piece<'_>, key: &str) -> Option<PartSteps<'a>>
    ensures { (rows : List Row) (es : List (List ℕ × Data)) (x : Data) → StandsFor rows piece.now (listpairs es) → value_at key.now es ≡ Some x → result ≡ Some (P.Pair (place_of key.now es)) }
{
    match items(piece) {
        Some(items) => {
            let seat = key_seat(items, key);
            if seat.there {
                Some(PartSteps::Pair(seat.place))
            } else {
                None
            }
        }
        None => None,
    }
}
