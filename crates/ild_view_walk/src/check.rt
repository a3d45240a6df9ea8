//! The check of an item against a slot.
ghost use Rattle.std.specs.Prelude.{◌<◌, ℕ, IfErr, List, length};
ghost use Rattle.ild_cbor.specs.Nodes.{HasData};
ghost use Rattle.ild_cbor.specs.declared.piece.Piece.TheVariants as P;
ghost use Rattle.ild_data.specs.Data.{Data};
ghost use Rattle.ild_schema.specs.declared.number.Slot.{Slot as Place};
ghost use Rattle.ild_schema.specs.declared.row.Row.{Row};
ghost use Rattle.ild_view_walk.specs.Checks.{Checks, Faults};
ghost use Rattle.ild_view_walk.specs.Told.{TellsPlace, TellsPlaceIn};

use crate::fault::ViewErr;
use crate::walk::check_piece;
use ild_cbor::{Node, Piece};
use ild_schema::{Accepted, Slot};
use std::alloc::Global;

// A refusal with its place in the block, where it is told from the item's first byte on.
fn in_block(node: &Node<'_>, fault: ViewErr) -> ViewErr
    ensures faults { (rows : List Row) (room : ℕ) (s : Place) (t : Data) → Faults rows room s t fault → Faults rows room s t result }
    ensures place { (rows : List Row) (room : ℕ) (s : Place) (t : Data) → HasData node.now t → TellsPlaceIn rows room s (P.Node node.now) t fault → TellsPlace rows room s node.now t result }
{
    match fault {
        ViewErr::Shape { ty, why, at } => ViewErr::Shape {
            ty,
            why,
            at: node.span().0.saturating_add(at),
        },
        ViewErr::Memory => ViewErr::Memory,
    }
}

/// Whether an item has a front of a slot that fits in a room: how many levels its value may nest. The answer is `Shape` exactly
/// where it has none, with the first piece that is refused on a walk of the data: a piece before its parts, and parts in order. Of
/// a HAMT the root is checked, and the keys and values of the buckets in this block. The offset that is told is where the item
/// begins in which the refused piece stands, in the block.
pub fn check_item<'b>(
    alloc: Global,
    acc: &'b Accepted,
    slot: Slot,
    node: Node<'b>,
    room: u32,
) -> Result<(), ViewErr>
    requires { slot.ty.0 < length acc.now }
    ensures checks { (t : Data) → HasData node.entry t → Checks acc.now room slot t result }
    ensures place { (t : Data) → HasData node.entry t → IfErr result (TellsPlace acc.now room slot node.entry t) }
{
    match check_piece(alloc, acc, slot, &Piece::Node(node), room) {
        Ok(()) => Ok(()),
        Err(fault) => Err(in_block(&node, fault)),
    }
}
