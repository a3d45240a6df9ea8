//! From what is there before an edit, and after it, to the change.
ghost use Rattle.std.specs.Prelude.{◌≡◌, Option, is_some};
ghost use Rattle.ild_splice_changes.specs.Differences.{at_item, at_key};
ghost use Rattle.ild_data.specs.Data.{Data};
ghost use Rattle.ild_path_last.specs.Change.{IsShown, located};
ghost use Rattle.ild_path_changes.specs.Pairs.{at_pair};

use crate::change::LastChange;
use ild_path_steps::PartSteps;

/// Of the entry of a map at a key.
pub(crate) fn entry_change<'a>(key: &'a str, before: bool, after: bool) -> LastChange<'a>
    ensures { (c d x u : Option Data) → before ≡ is_some c → after ≡ is_some d → IsShown d x → at_key key.now c d ≡ located result x u }
{
    match (before, after) {
        (false, false) => LastChange::Nothing,
        (false, true) => LastChange::InsertEntry(key),
        (true, false) => LastChange::RemoveEntry(key),
        (true, true) => LastChange::Replace(PartSteps::Entry(key)),
    }
}

/// Of the pair with a key in a list of pairs, at its place.
pub(crate) fn pair_change<'a>(place: u64, key: &'a str, before: bool, after: bool) -> LastChange<'a>
    ensures { (c d x u : Option Data) → before ≡ is_some c → after ≡ is_some d → IsShown d x → at_pair place key.now c d ≡ located result x u }
{
    match (before, after) {
        (false, false) => LastChange::Nothing,
        (false, true) => LastChange::InsertPair(place, key),
        (true, false) => LastChange::RemoveItem(place),
        (true, true) => LastChange::Replace(PartSteps::Pair(place)),
    }
}

/// Of the item of a list at a place.
pub(crate) fn item_change<'a>(place: u64, before: bool, after: bool) -> LastChange<'a>
    ensures { (c d x u : Option Data) → before ≡ is_some c → after ≡ is_some d → IsShown d x → at_item place c d ≡ located result x u }
{
    match (before, after) {
        (false, false) => LastChange::Nothing,
        (false, true) => LastChange::InsertItem(place),
        (true, false) => LastChange::RemoveItem(place),
        (true, true) => LastChange::Replace(PartSteps::Item(place)),
    }
}
