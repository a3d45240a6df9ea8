//! The check of an item against a slot.
ghost use Rattle.std.specs.Prelude.{◌≡◌, ◌<◌, IfErr, length, true};
ghost use Rattle.ild_cbor.specs.Nodes.{HasData};
ghost use Rattle.ild_data.specs.Data.{Data};
ghost use Rattle.ild_view.specs.Safe.{is_safe};
ghost use Rattle.ild_view_walk.specs.Told.{TellsPlace};

use crate::body::Body;
use crate::view::View;
use ild_cbor::{Node, Piece};
use ild_schema::{Accepted, Slot};
use ild_view_walk::{ViewErr, check_item};
use std::alloc::Global;

impl<'b> View<'b> {
    ghost use Rattle.ild_view.specs.View.{Views};

    /// The view of an item at a slot, in a room: how many levels its value may nest. The answer is `Shape` exactly where
    /// the item has no front of the slot that fits in the room, with the first piece that is refused on a walk of the data:
    /// a piece before its parts, and parts in order. Of a HAMT the root is checked, and the keys and values of the buckets
    /// in this block. The offset that is told is where the item begins in which the refused piece stands, in the block. Where
    /// null may stand in the slot, it is no value of the slot's type.
    pub fn check(
        alloc: Global,
        acc: &'b Accepted,
        slot: Slot,
        node: Node<'b>,
        room: u32,
    ) -> Result<View<'b>, ViewErr>
        requires within { slot.ty.0 < length acc.now }
        requires safe { is_safe acc.now slot ≡ true }
        ensures views { (t : Data) → HasData node.entry t → Views acc.now room slot node.entry t result }
        ensures place { (t : Data) → HasData node.entry t → IfErr result (TellsPlace acc.now room slot node.entry t) }
    {
        match check_item(alloc, acc, slot, node, room) {
            Ok(()) => Ok(View {
                acc,
                slot,
                body: Body::Held(Piece::Node(node)),
            }),
            Err(fault) => Err(fault),
        }
    }
}
