//! Steps over the parts of a struct, form by form.
ghost use Rattle.std.specs.Prelude.{◌<◌, IfSome, List, ℕ, map};
ghost use Rattle.ild_data.specs.Data as T;
ghost use Rattle.ild_data.specs.Data.{Data, Items as Parts, items_list, items_of};
ghost use Rattle.ild_cbor.specs.Steps.{HasItems};
ghost use Rattle.ild_schema.specs.Clear.{AreNamesApart};
ghost use Rattle.ild_schema.specs.declared.def.Field.{Field};
ghost use Rattle.ild_text.specs.Parts.{pairs_in, parts_left};
ghost use Rattle.ild_typed.specs.Strings.{pair_data};
ghost use Rattle.std.specs.Iterator.{at_most};
ghost use Rattle.ild_layer_fields.specs.Entries.{by_place, text_entries};
ghost use Rattle.ild_struct.specs.Present.{HasPresent, PresentGives, count_left, numbered};
ghost use Rattle.ild_struct.specs.declared.left.Left.TheVariants as L;
ghost use Rattle.ild_struct.specs.inside.Stepping.{TakesEntry, TakesField};

use crate::left::Left;
use crate::present::Present;
use ild_cbor::{Items, Piece};
use ild_layer_fields::{Fields, Pair};
use ild_layer_piece::MapEntries;
use ild_text::{JoinParts, PairParts};

/// The number of a field, its part, and what is left behind it.
type Taken<'b> = (usize, Piece<'b>, Left<'b>);

// The first entry of a map.
fn take_entry<'b>(fields: &Fields<'b>, entries: MapEntries<'b>, guess: usize) -> Option<Taken<'b>>
    ensures fewer { IfSome result (λ r. count_left r.2 < count_left (L.Map entries.entry guess)) }
    ensures takes { TakesEntry fields.now.def.now.fields entries.entry result }
{
    let mut left = entries;
    let (name, value) = left.next()?;
    let order = fields.acc.in_key_order(fields.base);
    let (place, behind) = fields.place_by_key(name, order, guess);
    Some((place, Piece::Node(value), Left::Map(left, behind)))
}

// The first item of a list.
fn take_item<'b>(items: Items<'b>, next: usize) -> Option<Taken<'b>>
    ensures fewer { IfSome result (λ r. count_left r.2 < count_left (L.Tuple items.entry)) }
    ensures takes { (fs : List Field) (ds : Parts) → HasItems items.entry ds → TakesField fs (numbered next (items_list ds)) result }
{
    let mut left = items;
    let value = left.next()?;
    Some((next, Piece::Node(value), Left::Tuple(left)))
}

// The first pair of a list.
fn take_pair<'b>(fields: &Fields<'b>, items: Items<'b>, next: usize) -> Option<Taken<'b>>
    ensures fewer { IfSome result (λ r. count_left r.2 < count_left (L.ListPairs items.entry)) }
    ensures takes { AreNamesApart fields.now.def.now.fields → (es : List (List ℕ × Data)) → HasItems items.entry (items_of (map pair_data es))
        → TakesField fields.now.def.now.fields (by_place fields.now.def.now.fields es) result }
{
    let mut left = items;
    let item = left.next()?;
    match Pair::of(&item) {
        Pair::Entry(name, value) => {
            let place = fields.place(name, next);
            Some((place, Piece::Node(value), Left::ListPairs(left)))
        }
        Pair::Odd | Pair::Empty | Pair::Name(_) => None,
    }
}

// The first pair of a text.
fn take_text_pair<'b>(fields: &Fields<'b>, split: PairParts<'b>, next: usize) -> Option<Taken<'b>>
    ensures fewer { IfSome result (λ r. count_left r.2 < count_left (L.StringPairs split.entry)) }
    ensures takes { AreNamesApart fields.now.def.now.fields → TakesField fields.now.def.now.fields (by_place fields.now.def.now.fields (text_entries (pairs_in split.entry))) result }
{
    let ((name, value), behind) = split.split_first()?;
    let place = fields.place(name, next);
    Some((place, Piece::Text(value), Left::StringPairs(behind)))
}

// The first part of a text.
fn take_text<'b>(split: Option<JoinParts<'b>>, next: usize) -> Option<Taken<'b>>
    ensures fewer { IfSome result (λ r. count_left r.2 < count_left (L.StringJoin split.entry)) }
    ensures takes { (fs : List Field) → TakesField fs (numbered next (map T.text (parts_left split.entry))) result }
{
    let (part, behind) = split?.split_first();
    Some((next, Piece::Text(part), Left::StringJoin(behind)))
}

impl<'b> Present<'b> {
    // The first of the parts that are left.
    fn first(&self) -> Option<Taken<'b>>
        ensures fewer { IfSome result (λ r. count_left r.2 < count_left self.now.left) }
        ensures takes { (xs : List (ℕ × Data)) → HasPresent self.now xs → TakesField self.now.fields.def.now.fields xs result }
    {
        match self.left {
            Left::Map(entries, guess) => take_entry(&self.fields, entries, guess),
            Left::Tuple(items) => take_item(items, self.next),
            Left::ListPairs(items) => take_pair(&self.fields, items, self.next),
            Left::StringPairs(split) => take_text_pair(&self.fields, split, self.next),
            Left::StringJoin(split) => take_text(split, self.next),
        }
    }
}

impl<'b> Iterator for Present<'b> {
    type Item = (usize, Piece<'b>);

    ghost next_gives = { PresentGives };

    ghost remaining = { λ s. at_most (count_left s.left) };

    fn next(&mut self) -> Option<(usize, Piece<'b>)> {
        let (place, piece, left) = self.first()?;
        self.left = left;
        self.next = place.saturating_add(1);
        Some((place, piece))
    }
}
