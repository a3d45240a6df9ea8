//! A node with another slot at an index. Where the slot was used and still is, the node is its old bytes with one element spliced in.
ghost use Rattle.std.specs.Prelude.{◌≡◌, ◌<◌, List, length, slice_set, IfOk, IfSome};
ghost use Rattle.ild_data.specs.Data.{Data};
ghost use Rattle.ild_data.specs.Limits.{deepest};
ghost use Rattle.ild_data.specs.Spell.{spell};
ghost use Rattle.ild_data.specs.Trie.{TrieSlot};
ghost use Rattle.ild_typed.specs.Nested.{BlockIn, TreeIn};
ghost use Rattle.ild_node.specs.NewSlots.{IsFilled, IsFilledSlot, hold_seen, slot_seen};
ghost use Rattle.ild_node.specs.Written.{IsNodeBlock};
ghost use Rattle.ild_node_slots.specs.Views.{HasSlots};
ghost use Rattle.ild_splice.specs.Splices.{IsAt};
ghost use Rattle.ild_splice_changes.specs.TreeChange.{TreeStep, changed, replace};

use crate::element::{element_at, element_of};
use ild_cbor::{Node, known_root};
use ild_data::{HamtShape, LONGEST_BLOCK, Octets};
use ild_node::{NewHold, NodeView, write_changed};
use ild_splice::{SpliceErr, replace};
use std::alloc::{AllocError, Global};

// The block in which an item stands, with an item of these bytes in its place, or `None` where that or the block itself is longer than a block may be.
fn replaced(alloc: Global, old: &Node<'_>, new: &[u8]) -> Result<Option<Octets>, AllocError>
    requires { BlockIn deepest new.now }
    ensures { (t d e : Data) (q : List TreeStep) → IsAt old.now t q d → TreeIn deepest e → new.now ≡ spell e → IfOk result (λ o. IfSome o (λ b. b ≡ spell (changed q (replace e) t))) }
{
    if new.len() > LONGEST_BLOCK {
        return Ok(None);
    }
    match replace(alloc, old, &known_root(new)) {
        Ok(block) => Ok(Some(block)),
        Err(SpliceErr::Size) => Ok(None),
        Err(SpliceErr::Memory) => Err(AllocError),
    }
}

// The block of a node with another used slot at the index of one, or `None` where that was empty or it is longer than a block may be.
fn spliced(
    alloc: Global,
    shape: HamtShape,
    view: NodeView<'_>,
    i: u8,
    hold: &NewHold,
) -> Result<Option<Octets>, AllocError>
    requires { IsFilled shape hold.now }
    ensures { (slots : List TrieSlot) → HasSlots shape view.entry slots → i < length slots → IfOk result (λ o. IfSome o (IsNodeBlock shape (slice_set slots i (hold_seen hold.now)))) }
{
    let Some(old) = element_at(view, i) else {
        return Ok(None);
    };
    let new = element_of(alloc, hold)?;
    replaced(alloc, &old, new.as_slice())
}

/// The block of a node with another slot at an index. A bucket there has from 1 to as many entries as one takes. Where the slot was used
/// and still is, its element is replaced in the bytes of the node. Else the map is another too, and the elements around the slot are copied in
/// two pieces.
pub(crate) fn exchanged(
    alloc: Global,
    shape: HamtShape,
    view: NodeView<'_>,
    i: u8,
    slot: &Option<NewHold>,
) -> Result<Octets, AllocError>
    requires { IsFilledSlot shape slot.now }
    ensures { (slots : List TrieSlot) → HasSlots shape view.entry slots → i < length slots → IfOk result (IsNodeBlock shape (slice_set slots i (slot_seen slot.now))) }
{
    if let Some(hold) = slot {
        if let Some(block) = spliced(alloc, shape, view, i, hold)? {
            return Ok(block);
        }
    }
    write_changed(alloc, view, i, slot)
}
