//! Structs as pairs in a list.
ghost use Rattle.std.specs.Prelude.{◌∷◌, [], ℕ, List, IfOk, map};
ghost use Rattle.ild_data.specs.Data.{Data, items_of};
ghost use Rattle.ild_data.specs.Key.{value_at};
ghost use Rattle.ild_cbor.specs.Nodes.{HasData};
ghost use Rattle.ild_cbor.specs.Steps.{HasItems};
ghost use Rattle.ild_layer_piece.specs.Entries.{Found};
ghost use Rattle.ild_layer_piece.specs.Pieces.{StandsFor};
ghost use Rattle.ild_schema.specs.Clear.{AreNamesApart};
ghost use Rattle.ild_schema.specs.declared.def.StructForm.TheVariants as S;
ghost use Rattle.ild_schema.specs.declared.row.Row.{Row};
ghost use Rattle.ild_typed.specs.Strings.{pair_data};
ghost use Rattle.ild_struct.specs.inside.Reading.{FormIsRead};
ghost use Rattle.ild_struct.specs.Source.{IsSourced};

use crate::source::Source;
use ild_cbor::{Items, Node, Piece, Why};
use ild_layer_fields::{Fields, Pair, note_pairs};
use ild_layer_piece::items;

/// A list of pairs in which the fields are looked up, or the first cause why the piece is no struct.
pub(crate) fn listpairs_source<'b>(
    fields: &Fields<'b>,
    piece: &Piece<'b>,
) -> Result<Source<'b>, Why>
    ensures answers { AreNamesApart fields.now.def.now.fields → (rows : List Row) (t : Data) → StandsFor rows piece.now t → FormIsRead rows S.ListPairs fields.now.def.now.fields t result }
    ensures sourced { (rows : List Row) → IfOk result (IsSourced rows) }
{
    let Some(items) = items(piece) else {
        return Err(Why::Kind);
    };
    let Some((notes, miscounted)) = note_pairs(fields, items) else {
        return Err(Why::Kind);
    };
    match notes.first_cause(fields.def.fields.as_slice(), miscounted, true) {
        Some(why) => Err(why),
        None => Ok(Source::ListPairs(items)),
    }
}

// The value of a pair, where its name is this one.
fn value_in<'b>(item: &Node<'b>, key: &str) -> Option<Node<'b>>
    ensures { (e : List ℕ × Data) → HasData item.now (pair_data e) → Found (value_at key.now (e ∷ [])) result }
{
    match Pair::of(item) {
        Pair::Entry(name, value) => { if key == name { Some(value) } else { None } }
        Pair::Odd | Pair::Empty | Pair::Name(_) => None,
    }
}

/// The value of a name among pairs.
pub(crate) fn pair_value<'b>(items: Items<'b>, key: &str) -> Option<Node<'b>>
    ensures { (es : List (List ℕ × Data)) → HasItems items.entry (items_of (map pair_data es)) → Found (value_at key.now es) result }
{
    let mut left = items;
    while let Some(item) = left.next() {
        if let Some(value) = value_in(&item, key) {
            return Some(value);
        }
    }
    None
}
