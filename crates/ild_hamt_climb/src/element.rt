//! The elements of a node's slots: where one stands in the node, and the spelling of one that is to take its place.
ghost use Rattle.std.specs.Prelude.{◌≡◌, ◌<◌, ◌≤◌, [], List, length, IfOk, IfSome};
ghost use Rattle.ild_data.specs.Bytes.{AreBytes};
ghost use Rattle.ild_data.specs.Data.{Data};
ghost use Rattle.ild_data.specs.Trie.{TrieSlot, bucket, child};
ghost use Rattle.ild_data.specs.declared.hamt_shape.HamtShape.{HamtShape};
ghost use Rattle.ild_cbor.specs.Nodes.{HasData};
ghost use Rattle.ild_node.specs.NewSlots.{IsFilled, hold_seen};
ghost use Rattle.ild_node_slots.specs.Places.{elements_before};
ghost use Rattle.ild_node_slots.specs.Views.{HasSlots};
ghost use Rattle.ild_splice.specs.Splices.{IsAt};
ghost use Rattle.ild_hamt_climb.specs.inside.Elements.{IsElementAt, SpellsElement};

use ild_cbor::{Node, known_root};
use ild_data::{BlockId, Octets};
use ild_emit::Emit;
use ild_node::{NewHold, NodeView, Rows, add_entry};
use ild_splice::nodes_are_at_places;
use std::alloc::{AllocError, Global};

/// Room for the link of a child.
const LINK_ROOM: usize = 48;

// An item as a block by itself.
fn apart<'b>(node: &Node<'b>) -> Node<'b>
    ensures { (t : Data) → HasData node.now t → IsAt result t [] t }
{
    // It does no work: its clause says what the node of a whole block is.
    nodes_are_at_places();
    known_root(node.spelling())
}

// How many elements stand before that of a slot.
fn count_before(view: NodeView<'_>, i: u8) -> u64
    ensures { (p : HamtShape) (slots : List TrieSlot) → HasSlots p view.entry slots → i < length slots → result ≡ elements_before slots i }
{
    let mut count: u64 = 0;
    for j in 0..i as usize {
        count = count.saturating_add(view.is_used(j) as u64);
    }
    count
}

/// The element of a slot, in the node as a block by itself, or `None` where the slot is empty.
pub(crate) fn element_at<'b>(view: NodeView<'b>, i: u8) -> Option<Node<'b>>
    ensures { (p : HamtShape) (slots : List TrieSlot) → HasSlots p view.entry slots → i < length slots → IfSome result (IsElementAt slots i) }
{
    if !view.is_used(i as usize) {
        return None;
    }
    // It does no work: its clauses say what the node of an item is.
    nodes_are_at_places();
    let node = view.node();
    let list = apart(&node).item(1)?;
    list.item(count_before(view, i))
}

// The items of a slice of bytes are bytes; a caller that needs the fact makes this call, which does no work.
fn are_bytes(bytes: &[u8])
    ensures { AreBytes bytes.now }
{}

// The link of a child.
fn link_element(alloc: Global, id: &BlockId) -> Result<Octets, AllocError>
    ensures { (p : HamtShape) → IfOk result (SpellsElement p (child id.now.0)) }
{
    are_bytes(&id.0);
    let mut out = Emit::with_room(alloc, LINK_ROOM)?;
    out.block_link(id)?;
    Ok(out.finish())
}

// The bucket of rows.
fn bucket_element(alloc: Global, rows: &Rows) -> Result<Octets, AllocError>
    ensures { (p : HamtShape) → 1 ≤ length rows.now → length rows.now ≤ p.bucket → IfOk result (SpellsElement p (bucket rows.now)) }
{
    let rows = rows.as_slice();
    let mut out = Emit::new(alloc);
    out.head(4, rows.len() as u64)?;
    for row in rows {
        add_entry(&mut out, row)?;
    }
    Ok(out.finish())
}

/// The element of a used slot, spelled.
pub(crate) fn element_of(alloc: Global, hold: &NewHold) -> Result<Octets, AllocError>
    ensures { (p : HamtShape) → IsFilled p hold.now → IfOk result (SpellsElement p (hold_seen hold.now)) }
{
    match hold {
        NewHold::Child(id) => link_element(alloc, id),
        NewHold::Bucket(rows) => bucket_element(alloc, rows),
    }
}
