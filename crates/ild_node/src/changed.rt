//! Writing a node of which one slot is exchanged: the elements of the others are copied as they are spelled, in two pieces.
ghost use Rattle.std.specs.Prelude.{◌≡◌, ◌<◌, List, length, map, slice_set, IfOk};
ghost use Rattle.ild_data.specs.Trie.{TrieSlot, is_used};
ghost use Rattle.ild_data.specs.declared.hamt_shape.HamtShape.{HamtShape};
ghost use Rattle.ild_node_slots.specs.Views.{HasSlots};
ghost use Rattle.ild_node.specs.NewSlots.{IsFilledSlot, is_used_with, with_slot};
ghost use Rattle.ild_node.specs.Written.{IsNodeBlock};

use crate::hold::NewHold;
use crate::write::{add_slot, begin, count_of};
use ild_data::Octets;
use ild_node_slots::NodeView;
use std::alloc::{AllocError, Global};

// Whether a slot is used, where slot i is exchanged for one that is used or not.
fn is_on(view: NodeView<'_>, j: usize, i: u8, on: bool) -> bool
    ensures { (p : HamtShape) (slots : List TrieSlot) (s : TrieSlot) → HasSlots p view.entry slots → on ≡ is_used s → j < length slots → result ≡ is_used_with slots i s j }
{
    if j == i as usize {
        return on;
    }
    view.is_used(j)
}

// Which slots are used then.
fn used_after(alloc: Global, view: NodeView<'_>, i: u8, on: bool) -> Result<Vec<bool>, AllocError>
    ensures { (p : HamtShape) (slots : List TrieSlot) (s : TrieSlot) → HasSlots p view.entry slots → on ≡ is_used s → IfOk result (λ u. u.items ≡ map is_used (slice_set slots i s)) }
{
    let mut used = Vec::new(alloc);
    for j in 0..view.shape().slots() {
        used.push(is_on(view, j, i, on))?;
    }
    Ok(used)
}

/// The block of a node with another slot at an index. A bucket there has from 1 to as many entries as the node's shape says. The
/// elements of the other slots are copied in two pieces.
pub fn write_changed(
    alloc: Global,
    view: NodeView<'_>,
    i: u8,
    slot: &Option<NewHold>,
) -> Result<Octets, AllocError>
    ensures { (p : HamtShape) (slots : List TrieSlot) → HasSlots p view.entry slots → IsFilledSlot p slot.now → i < length slots → IfOk result (IsNodeBlock p (with_slot slots i slot.now)) }
{
    let used = used_after(alloc, view, i, slot.is_some())?;
    let mut out = begin(alloc, &used, count_of(&used))?;
    let (front, back) = view.around(i);
    out.spelled(front)?;
    add_slot(&mut out, slot)?;
    out.spelled(back)?;
    Ok(out.finish())
}
