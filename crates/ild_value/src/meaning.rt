//! The value that a tree means in a slot.
ghost use Rattle.std.specs.Prelude.{◌<◌, IfErr, IfOk, length};
ghost use Rattle.ild_data.specs.Seen.{data_of};
ghost use Rattle.ild_value_meaning.specs.MeantLaws.{IsMeantTyped};
ghost use Rattle.ild_schema.specs.ValueSeen.{value_of};
ghost use Rattle.ild_value.specs.Readings.{IsRefused, Means, MeansNone};

use crate::ShownErr;
use crate::read::tree_value;
use ild_data::Tree;
use ild_schema::{Accepted, Slot, Val};
use std::alloc::Global;

/// The value that a tree means in a slot, which takes over the texts, keys and bytes of the tree: the one whose shown form it is,
/// but that it may leave out implicit fields. Else the tree means none, and a rule that a part of it breaks is told, with the
/// type at which it does.
pub fn from_shown(alloc: Global, acc: &Accepted, slot: Slot, tree: Tree) -> Result<Val, ShownErr>
    requires { slot.ty.0 < length acc.now }
    ensures ok { IfOk result (λ v. Means acc.now slot (data_of tree) (value_of v)) }
    ensures typed { IfOk result (λ v. IsMeantTyped acc.now slot (value_of v)) }
    ensures err { IfErr result (IsRefused acc.now slot (data_of tree)) }
    ensures none { IfErr result (MeansNone acc.now slot (data_of tree)) }
{
    // These two do no work: their clauses say what acceptance says of the types, and that the data are a tree.
    acc.recall();
    tree.well_formed();
    tree_value(alloc, acc, slot, tree)
}

/// The same of a tree that is kept: its texts, keys and bytes are copied.
pub fn of_shown(alloc: Global, acc: &Accepted, slot: Slot, tree: &Tree) -> Result<Val, ShownErr>
    requires { slot.ty.0 < length acc.now }
    ensures ok { IfOk result (λ v. Means acc.now slot (data_of tree.now) (value_of v)) }
    ensures typed { IfOk result (λ v. IsMeantTyped acc.now slot (value_of v)) }
    ensures err { IfErr result (IsRefused acc.now slot (data_of tree.now)) }
    ensures none { IfErr result (MeansNone acc.now slot (data_of tree.now)) }
{
    let copy = tree.copy()?;
    from_shown(alloc, acc, slot, copy)
}
