//! What one pass over names with values finds, form by form.
ghost use Rattle.std.specs.Prelude.{◌≡◌, ◌∷◌, [], ℕ, List, true};
ghost use Rattle.ild_cbor.specs.Steps.{HasItems};
ghost use Rattle.ild_data.specs.Data.{Data, Items as Parts, items_list};
ghost use Rattle.ild_layer_piece.specs.Entries.{HasLeft};
ghost use Rattle.ild_schema.specs.Clear.{AreNamesApart};
ghost use Rattle.ild_text.specs.Parts.{pairs_in};
ghost use Rattle.ild_typed.specs.Named.{names};
ghost use Rattle.ild_layer_fields.specs.Causes.{Noted, PairsNoted, NotesPair};
ghost use Rattle.ild_layer_fields.specs.Entries.{text_entries};
ghost use Rattle.ild_layer_fields.specs.Told.{AreTold};

use crate::fields::Fields;
use crate::notes::Notes;
use crate::pair::Pair;
use crate::told::is_told_at;
use ild_cbor::{Items, Piece};
use ild_layer_piece::MapEntries;
use ild_text::PairParts;

/// What one pass over the entries of a map finds, and whether their kinds tell that all are values of their fields.
pub fn note_entries(fields: &Fields<'_>, entries: MapEntries<'_>) -> (Notes, bool)
    ensures noted { AreNamesApart fields.now.def.now.fields → (es : List (List ℕ × Data)) → HasLeft entries.entry es → Noted fields.now.def.now.fields (names es) es result.0 }
    ensures told { result.1 ≡ true → AreTold fields.now.acc.now fields.now.def.now.fields entries.entry }
{
    let order = fields.acc.in_key_order(fields.base);
    let mut notes = Notes::new();
    let mut left = entries;
    let mut guess = 0;
    let mut told = true;
    while let Some((name, value)) = left.next() {
        let (place, next) = fields.place_by_key(name, order, guess);
        notes.note_placed(fields, place, &Piece::Node(value));
        told &= is_told_at(fields, place, &value);
        guess = next;
    }
    (notes, told)
}

impl Notes {
    // One pair more that is none but a list with a name, where it has any items: whether it has two.
    fn note_pair(&mut self, fields: &Fields<'_>, pair: &Pair<'_>) -> bool
        ensures { NotesPair fields.now.def.now.fields pair.now self.old result self.new }
    {
        match pair {
            Pair::Odd | Pair::Empty => false,
            Pair::Name(name) => {
                self.note_name(fields, name);
                false
            }
            Pair::Entry(name, value) => {
                self.note_entry(fields, name, &Piece::Node(*value));
                true
            }
        }
    }
}

/// What one pass over the pairs of a list finds, and whether one has another number of parts, or `None` where a pair or its
/// name has another kind.
pub fn note_pairs(fields: &Fields<'_>, items: Items<'_>) -> Option<(Notes, bool)>
    ensures { AreNamesApart fields.now.def.now.fields → (ds : Parts) → HasItems items.entry ds → PairsNoted fields.now.def.now.fields (items_list ds) result }
{
    let mut notes = Notes::new();
    let mut miscounted = false;
    let mut left = items;
    while let Some(item) = left.next() {
        let pair = Pair::of(&item);
        if let Pair::Odd = pair {
            return None;
        }
        miscounted |= !notes.note_pair(fields, &pair);
    }
    Some((notes, miscounted))
}

/// What one pass over the pairs of a text finds.
pub fn note_texts(fields: &Fields<'_>, split: PairParts<'_>) -> Notes
    ensures { AreNamesApart fields.now.def.now.fields → Noted fields.now.def.now.fields (names (text_entries (pairs_in split.entry))) (text_entries (pairs_in split.entry)) result }
{
    let mut notes = Notes::new();
    let mut left = split;
    while let Some(((name, value), behind)) = left.split_first() {
        notes.note_entry(fields, name, &Piece::Text(value));
        left = behind;
    }
    notes
}
