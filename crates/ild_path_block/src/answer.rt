//! The answer, by the change of the last holder and the steps to it.
ghost use Rattle.std.specs.Prelude.{◌≡◌, ◌≤◌, ℕ, [], List, Option, Some, length, take};
ghost use Rattle.ild_splice_changes.specs.TreeChange.{part_at};
ghost use Rattle.ild_data.specs.Data.{Data};
ghost use Rattle.ild_path_block.specs.Spliced.{AnswersBlock, IsHolderAt, AnswersReady, AnswersWithin, IsBeneath, MakesWith};
ghost use Rattle.ild_path_replaced.specs.Seen.{all_steps};
ghost use Rattle.ild_splice.specs.Made.{MakesBytes};
ghost use Rattle.ild_splice.specs.Splices.{IsAt};

use ild_cbor::Node;
use ild_data::Octets;
use ild_path_apply::{applied, is_whole};
use ild_path_holder::steps_stand;
use ild_path_last::LastChange;
use ild_path_replaced::{node_along, replaced};
use ild_path_steps::PartSteps;
use ild_splice::{SpliceErr, replace_with};
use std::alloc::Global;

/// What an edit makes of a block.
#[derive(Drop)]
pub enum Spliced<'b> {
    /// The new block.
    Block(Octets),
    /// A holder's item is replaced as a whole.
    Holder(Replaced<'b>),
}

/// A holder that an edit replaces as a whole, by the item of what it becomes.
#[derive(Clone, Copy)]
pub struct Replaced<'b> {
    /// How many segments of the path lead to it.
    pub holder: usize,
    /// Its item in the block.
    pub item: Node<'b>,
}

impl<'b> Replaced<'b> {
    /// The new block, by the spelling of the item of what the holder becomes.
    pub fn block_with(&self, alloc: Global, new: &[u8]) -> Result<Octets, SpliceErr>
        ensures { MakesWith self.now new.now result }
    {
        replace_with(alloc, &self.item, new)
    }
}

// The holder to which so many steps lead is replaced.
fn whole<'b>(root: &Node<'b>, steps: &[PartSteps<'_>], holder: usize) -> Option<Spliced<'b>>
    requires { holder ≤ length steps.now }
    ensures { (t d : Data) → IsAt root.now t [] t → part_at (all_steps (take holder steps.now)) t ≡ Some d → IsHolderAt t (all_steps (take holder steps.now)) d holder result }
{
    let item = node_along(*root, &steps[..holder])?;
    Some(Spliced::Holder(Replaced { holder, item }))
}

/// What is made is the block.
pub(crate) fn block<'b>(made: Result<Octets, SpliceErr>) -> Result<Option<Spliced<'b>>, SpliceErr>
    ensures made { (bytes : List ℕ) → MakesBytes bytes made → AnswersBlock bytes result }
    ensures beneath { IsBeneath [] result }
{
    Ok(Some(Spliced::Block(made?)))
}

// The block with a change of the last holder's item.
fn within<'b>(
    alloc: Global,
    root: &Node<'b>,
    steps: &[PartSteps<'_>],
    change: &LastChange<'_>,
    new: Option<Node<'_>>,
) -> Result<Option<Spliced<'b>>, SpliceErr>
    ensures { AnswersWithin root.now steps.now change.now new.entry result }
{
    match node_along(*root, steps) {
        Some(item) => block(applied(alloc, &item, change, new, None)),
        None => Ok(None),
    }
}

/// The answer, by the steps to the last holder and the change there.
pub(crate) fn told<'b>(
    alloc: Global,
    root: &Node<'b>,
    steps: &[PartSteps<'_>],
    change: &LastChange<'_>,
    new: Option<Node<'_>>,
) -> Result<Option<Spliced<'b>>, SpliceErr>
    ensures { AnswersReady root.now steps.now change.now new.entry result }
{
    // It does no work: its clause says that there is an item at the end of the steps.
    steps_stand();
    match replaced(steps, change.touch()) {
        Some(holder) => Ok(whole(root, steps, holder)),
        None => {
            if is_whole(change) {
                Ok(whole(root, steps, steps.len()))
            } else {
                within(alloc, root, steps, change, new)
            }
        }
    }
}
