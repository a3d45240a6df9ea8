//! One segment of a path.
ghost use Rattle.std.specs.Prelude.{◌≡◌, ◌<◌, ◌+◌, ◌^◌, List, Some, is_some, length, true};
ghost use Rattle.ild_cbor.specs.Nodes.{HasData};
ghost use Rattle.ild_data.specs.Data.{Data};
ghost use Rattle.ild_inclusion.specs.Given.{GoesGiven, HasMemory, IsMapOf, OffGiven, OnGiven, RefusedGiven};
ghost use Rattle.ild_inclusion.specs.Says.{EntersRoot, GoesToSlot};
ghost use Rattle.ild_path_room.specs.ValueSlot.{value_in};
ghost use Rattle.ild_schema.specs.Slots.{form_of};
ghost use Rattle.ild_schema.specs.Value.{Value, hamt};
ghost use Rattle.ild_schema.specs.declared.number.Slot.{Slot};
ghost use Rattle.ild_schema.specs.declared.row.Row.{Row};
ghost use Rattle.ild_typed.specs.At.{InSlot};
ghost use Rattle.ild_view.specs.Forms.{shape_in};
ghost use Rattle.ild_view.specs.Parts.{IsPartView};
ghost use Rattle.ild_view.specs.Roots.{RootIs};
ghost use Rattle.ild_view.specs.View.{IsView, slot_of, table_of};

use crate::end::End;
use crate::entry::fronted;
use crate::fault::VerifyErr;
use crate::stand::Stand;
use crate::way::find_end;
use ild_cbor::Node;
use ild_data::{KeyHash, Octets};
use ild_node_slots::NodeView;
use ild_path_room::{levels, value_slot};
use ild_view::View;
use std::alloc::Global;

/// Where a segment leads.
#[derive(Clone, Copy)]
pub(crate) enum Step<'b> {
    /// On to a part.
    On(Stand<'b>),
    /// Nowhere: there the way ends.
    Off(End<'b>),
}

// On to a part.
fn on_to<'b>(
    view: View<'b>,
    room: u32,
    at: usize,
    left: &'b [Octets],
) -> Result<Step<'b>, VerifyErr>
    requires { at + length left.now + 1 < 2 ^ 64 }
    ensures { (rows : List Row) (q : InSlot) → IsPartView rows q view.entry → OnGiven rows room result at q left.now }
{
    Ok(Step::On(Stand {
        view,
        room,
        at,
        left,
    }))
}

// Nowhere: the way ends in block `at`.
fn nowhere<'b>(at: usize, left: &'b [Octets]) -> Result<Step<'b>, VerifyErr>
    requires { at + length left.now + 1 < 2 ^ 64 }
    ensures { OffGiven result at left.now }
{
    Ok(Step::Off(End {
        value: None,
        at,
        left,
    }))
}

// On to the value at a key of a map, an item in block `at`; it may nest so many levels.
fn go_to<'b>(
    alloc: Global,
    map: &View<'b>,
    node: Node<'b>,
    room: u32,
    at: usize,
    left: &'b [Octets],
) -> Result<Step<'b>, VerifyErr>
    requires few { at + length left.now + 1 < 2 ^ 64 }
    requires map { is_some (value_in (form_of (table_of map.now) (slot_of map.now))) ≡ true }
    ensures { (elem : Slot) → IsMapOf (form_of (table_of map.now) (slot_of map.now)) elem → (t : Data) → HasData node.entry t → HasMemory result
        → GoesToSlot (table_of map.now) room (slot_of map.now) at t (λ q. OnGiven (table_of map.now) room result at q left.now) (RefusedGiven result) }
{
    let acc = map.schema();
    match value_slot(acc, map) {
        Some(slot) => match fronted(alloc, acc, slot, node, room, at) {
            Ok(view) => on_to(view, room, at, left),
            Err(fault) => Err(fault),
        },
        None => unreachable!(),
    }
}

// The part at a key of a HAMT, whose root node stands in block `at`; values may nest so many levels.
fn enter<'b, H: KeyHash>(
    alloc: Global,
    map: &View<'b>,
    root: NodeView<'b>,
    key: &str,
    room: u32,
    at: usize,
    left: &'b [Octets],
    keys: &H,
) -> Result<Step<'b>, VerifyErr>
    requires few { at + length left.now + 1 < 2 ^ 64 }
    requires map { is_some (value_in (form_of (table_of map.now) (slot_of map.now))) ≡ true }
    ensures { (d : Data) → IsView map.now (hamt d) → RootIs (shape_in (form_of (table_of map.now) (slot_of map.now))) (Some d) (Some root.entry) → HasMemory result
        → EntersRoot (table_of map.now) (H.hash_of key.now) key.now room (slot_of map.now) d at left.now (OnGiven (table_of map.now) room result) (OffGiven result) (RefusedGiven result) }
{
    let hash = keys.hash(key.as_bytes());
    let end = match find_end(root.shape(), root, key, &hash, 0, at, left) {
        Ok(end) => end,
        Err(reject) => return Err(VerifyErr::Reject(reject)),
    };
    match end.value {
        Some(node) => go_to(alloc, map, node, room, end.at, end.left),
        None => Ok(Step::Off(end)),
    }
}

/// Where a segment leads from a value.
pub(crate) fn go_on<'b, H: KeyHash>(
    alloc: Global,
    from: &Stand<'b>,
    segment: &str,
    keys: &H,
) -> Result<Step<'b>, VerifyErr>
    ensures { (f : Value) → IsView from.now.view f → HasMemory result
        → GoesGiven H.hash_of (table_of from.now.view) from.now.room from.now.at (slot_of from.now.view, f) segment.now from.now.left.now result }
{
    let Stand {
        view,
        room,
        at,
        left,
    } = *from;
    let room = room.saturating_sub(levels(&view));
    if let Some(part) = view.part(segment) {
        return on_to(part, room, at, left);
    }
    match view.hamt() {
        Some(root) => enter(alloc, &view, root, segment, room, at, left, keys),
        None => nowhere(at, left),
    }
}
