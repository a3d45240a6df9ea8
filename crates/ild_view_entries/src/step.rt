//! Steps over the entries of a map, form by form.
ghost use Rattle.std.specs.Prelude.{◌≡◌, ◌<◌, IfSome, List, false, ℕ};
ghost use Rattle.ild_cbor.specs.Nodes.{HasData};
ghost use Rattle.ild_data.specs.Data.{Data};
ghost use Rattle.ild_view_entries.specs.Left.{AreLeft, FirstStep, IsPairOf, most_left};
ghost use Rattle.ild_view_entries.specs.declared.left.EntriesLeft.TheVariants as R;
ghost use Rattle.ild_typed.specs.Strings.{pair_data};
ghost use Rattle.ild_union.specs.Forms.{passes_over};

use crate::left::EntriesLeft;
use ild_cbor::{Items, Node, Piece};
use ild_layer_piece::MapEntries;
use ild_text::PairParts;

// A key, its value, and what is left behind it.
type Taken<'b> = (&'b str, Piece<'b>, EntriesLeft<'b>);

// The key and the value of a pair.
fn pair_of<'b>(item: &Node<'b>) -> Option<(&'b str, Node<'b>)>
    ensures { (e : List ℕ × Data) → HasData item.now (pair_data e) → IsPairOf e result }
{
    match item.item(0) {
        Some(first) => match first.text() {
            Some(key) => match item.item(1) {
                Some(value) => Some((key, value)),
                None => None,
            },
            None => None,
        },
        None => None,
    }
}

// The first entry of a map.
fn take_entry<'b>(entries: MapEntries<'b>) -> Option<Taken<'b>>
    ensures step { (es : List (List ℕ × Data)) → AreLeft (R.Map entries.entry) es → FirstStep es result }
    ensures fewer { IfSome result (λ r. most_left r.2 < most_left (R.Map entries.entry)) }
    ensures free { IfSome result (λ r. passes_over r.1 ≡ false) }
{
    let mut left = entries;
    match left.next() {
        Some((key, value)) => Some((key, Piece::Node(value), EntriesLeft::Map(left))),
        None => None,
    }
}

// The first pair of a list.
fn take_pair<'b>(items: Items<'b>) -> Option<Taken<'b>>
    ensures step { (es : List (List ℕ × Data)) → AreLeft (R.ListPairs items.entry) es → FirstStep es result }
    ensures fewer { IfSome result (λ r. most_left r.2 < most_left (R.ListPairs items.entry)) }
    ensures free { IfSome result (λ r. passes_over r.1 ≡ false) }
{
    let mut left = items;
    match left.next() {
        Some(item) => match pair_of(&item) {
            Some((key, value)) => Some((key, Piece::Node(value), EntriesLeft::ListPairs(left))),
            None => None,
        },
        None => None,
    }
}

// The first pair of a text.
fn take_text<'b>(split: PairParts<'b>) -> Option<Taken<'b>>
    ensures step { (es : List (List ℕ × Data)) → AreLeft (R.StringPairs split.entry) es → FirstStep es result }
    ensures fewer { IfSome result (λ r. most_left r.2 < most_left (R.StringPairs split.entry)) }
    ensures free { IfSome result (λ r. passes_over r.1 ≡ false) }
{
    match split.split_first() {
        Some(((key, value), behind)) => Some((
            key,
            Piece::Text(value),
            EntriesLeft::StringPairs(behind),
        )),
        None => None,
    }
}

impl<'b> EntriesLeft<'b> {
    /// The first entry, as its key and its value, and those behind it, or `None` where none is left.
    pub fn split_first(&self) -> Option<(&'b str, Piece<'b>, EntriesLeft<'b>)>
        ensures step { (es : List (List ℕ × Data)) → AreLeft self.now es → FirstStep es result }
        ensures fewer { IfSome result (λ r. most_left r.2 < most_left self.now) }
        ensures free { IfSome result (λ r. passes_over r.1 ≡ false) }
    {
        match self {
            EntriesLeft::Map(entries) => take_entry(*entries),
            EntriesLeft::ListPairs(items) => take_pair(*items),
            EntriesLeft::StringPairs(split) => take_text(*split),
        }
    }
}
