//! Each change of a last holder's item.
ghost use Rattle.std.specs.Prelude.{◌≡◌, Option, true};
ghost use Rattle.ild_path_apply.specs.Applies.{Applies, Come, has_no_item, is_whole};
ghost use Rattle.ild_data.specs.Data.{Data};
ghost use Rattle.ild_path_last.specs.Change.{NewIs, located};
ghost use Rattle.ild_path_changes.specs.Lift.{whole as exchange};
ghost use Rattle.ild_path_steps.specs.Steps.{carried};

use crate::inner::{
    exchanged, same, with_entry, with_item, with_pair, with_part, without_entry, without_item,
};
use ild_cbor::Node;
use ild_data::Octets;
use ild_path_last::LastChange;
use ild_path_steps::PartSteps;
use ild_splice::SpliceErr;
use std::alloc::Global;

// Whether a part has no item that could be replaced alone.
fn has_no_item(steps: &PartSteps<'_>) -> bool
    ensures { result ≡ has_no_item steps.now }
{
    match steps {
        PartSteps::Whole | PartSteps::Beside(_) => true,
        PartSteps::Same | PartSteps::Item(_) | PartSteps::Entry(_) | PartSteps::Pair(_) => false,
    }
}

/// Whether a change replaces the whole item of a holder by that of what the holder becomes.
pub fn is_whole(change: &LastChange<'_>) -> bool
    ensures { result ≡ is_whole change.now }
{
    match change {
        LastChange::Whole => true,
        LastChange::Replace(steps) => has_no_item(steps),
        LastChange::Nothing
        | LastChange::InsertItem(_)
        | LastChange::InsertPair(_, _)
        | LastChange::InsertEntry(_)
        | LastChange::RemoveItem(_)
        | LastChange::RemoveEntry(_) => false,
    }
}

// With another item in the place of a part's, or of the whole where the part has none.
fn replaced(
    alloc: Global,
    node: &Node<'_>,
    steps: &PartSteps<'_>,
    new: Option<Node<'_>>,
    whole: Option<Node<'_>>,
) -> Result<Octets, SpliceErr>
    ensures { (x u : Option Data) → NewIs new.entry x → (has_no_item steps.now ≡ true → NewIs whole.entry u) → Applies node.now (carried steps.now u (exchange x)) result }
{
    match steps {
        PartSteps::Whole => exchanged(alloc, node, whole),
        PartSteps::Beside(_) => match new {
            Some(_) => exchanged(alloc, node, whole),
            None => same(alloc, node),
        },
        PartSteps::Same | PartSteps::Item(_) | PartSteps::Entry(_) | PartSteps::Pair(_) => {
            match new {
                Some(new) => with_part(alloc, node, steps, &new),
                None => same(alloc, node),
            }
        }
    }
}

/// The block in which the item of a holder stands, with what an edit changes in that item. The new part, where there is one, is copied
/// from its own block, and so is the item of what the holder becomes, which is wanted where `is_whole` says so.
pub fn applied(
    alloc: Global,
    node: &Node<'_>,
    change: &LastChange<'_>,
    new: Option<Node<'_>>,
    whole: Option<Node<'_>>,
) -> Result<Octets, SpliceErr>
    ensures { (x u : Option Data) → Come change.now new.entry whole.entry x u → Applies node.now (located change.now x u) result }
{
    match change {
        LastChange::Nothing => same(alloc, node),
        LastChange::Whole => exchanged(alloc, node, whole),
        LastChange::Replace(steps) => replaced(alloc, node, steps, new, whole),
        LastChange::InsertItem(i) => match new {
            Some(new) => with_item(alloc, node, *i, &new),
            None => same(alloc, node),
        },
        LastChange::InsertPair(i, key) => match new {
            Some(new) => with_pair(alloc, node, *i, key, &new),
            None => same(alloc, node),
        },
        LastChange::InsertEntry(key) => match new {
            Some(new) => with_entry(alloc, node, key, &new),
            None => same(alloc, node),
        },
        LastChange::RemoveItem(i) => without_item(alloc, node, *i),
        LastChange::RemoveEntry(key) => without_entry(alloc, node, key),
    }
}
