//! An item that is to have a front.
ghost use Rattle.std.specs.Prelude.{◌≡◌, ◌<◌, length, true};
ghost use Rattle.ild_cbor.specs.Nodes.{HasData};
ghost use Rattle.ild_data.specs.Data.{Data};
ghost use Rattle.ild_inclusion.specs.Given.{FrontGiven, HasMemory, RefusedGiven};
ghost use Rattle.ild_inclusion.specs.Says.{Fronted};
ghost use Rattle.ild_view.specs.Safe.{is_safe};

use crate::fault::{Reject, VerifyErr};
use ild_cbor::Node;
use ild_schema::{Accepted, Slot};
use ild_typed::refused_have_no_front;
use ild_view::{View, ViewErr};
use std::alloc::Global;

/// The view of an item in block `at` that is to have a front of a slot in a room.
pub(crate) fn fronted<'b>(
    alloc: Global,
    acc: &'b Accepted,
    slot: Slot,
    node: Node<'b>,
    room: u32,
    at: usize,
) -> Result<View<'b>, VerifyErr>
    requires within { slot.ty.0 < length acc.now }
    requires safe { is_safe acc.now slot ≡ true }
    ensures { (t : Data) → HasData node.entry t → HasMemory result → Fronted acc.now room at slot t (FrontGiven acc.now slot result) (RefusedGiven result) }
{
    // They do no work: their clauses say what acceptance says of the table, and that what is refused has no front.
    acc.recall();
    refused_have_no_front();
    match View::check(alloc, acc, slot, node, room) {
        Ok(view) => Ok(view),
        Err(ViewErr::Shape { .. }) => Err(VerifyErr::Reject(Reject::Shape(at))),
        Err(ViewErr::Memory) => Err(VerifyErr::Memory),
    }
}
