//! What an edit changes in the item of a holder.
ghost use Rattle.std.specs.Prelude.{◌≡◌, Some, []};
ghost use Rattle.ild_splice_changes.specs.TreeChange.{one, replace};
ghost use Rattle.ild_data.specs.Data.{Data};
ghost use Rattle.ild_path_last.specs.Change.{located};
ghost use Rattle.ild_path_replaced.specs.Seen.{top_of, touched};
ghost use Rattle.ild_path_steps.specs.Steps.{carried};

use ild_path_replaced::Touch;
use ild_path_steps::PartSteps;

/// What an edit changes in the item of a holder.
#[derive(Clone, Copy, Debug, PartialEq, Eq)]
pub enum LastChange<'a> {
    /// Nothing.
    Nothing,
    /// All of it: the item is replaced by that of what the holder becomes.
    Whole,
    /// The item to which steps lead is replaced by that of the new part.
    Replace(PartSteps<'a>),
    /// The new part's item comes into a list at a place.
    InsertItem(u64),
    /// A pair of a key and the new part's item comes into a list at a place.
    InsertPair(u64, &'a str),
    /// The new part's item comes into a map at a key.
    InsertEntry(&'a str),
    /// The item of a list at a place goes.
    RemoveItem(u64),
    /// The entry of a map at a key goes.
    RemoveEntry(&'a str),
}

// What is touched where the item to which steps lead is replaced.
fn replacing<'a>(steps: &PartSteps<'a>) -> Touch<'a>
    ensures { (x u : Data) → touched result ≡ top_of (carried steps.now (Some u) (one [] (replace x))) }
{
    match steps {
        PartSteps::Whole | PartSteps::Same | PartSteps::Beside(_) => Touch::Whole,
        PartSteps::Item(_) | PartSteps::Pair(_) => Touch::Item,
        PartSteps::Entry(key) => Touch::Entry(key),
    }
}

impl<'a> LastChange<'a> {
    /// What the change touches of the holder's item, where the new part and what the holder becomes stand in a block.
    pub fn touch(&self) -> Touch<'a>
        ensures { (x u : Data) → touched result ≡ top_of (located self.now (Some x) (Some u)) }
    {
        match self {
            LastChange::Nothing => Touch::Nothing,
            LastChange::Whole => Touch::Whole,
            LastChange::Replace(steps) => replacing(steps),
            LastChange::InsertItem(_) | LastChange::InsertPair(_, _) | LastChange::RemoveItem(_) =>
                Touch::Item,
            LastChange::InsertEntry(key) | LastChange::RemoveEntry(key) => Touch::Entry(key),
        }
    }
}
