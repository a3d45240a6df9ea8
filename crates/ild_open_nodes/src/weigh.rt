//! Whether more entries than a bucket takes stand in a node and beneath it.
ghost use Rattle.std.specs.Prelude.{◌≡◌, ◌+◌, ◌-◌, ◌<◌, ◌≤◌, ℕ, List, length, true, false, Some, slice_get};
ghost use Rattle.ild_data.specs.Trie.{TrieSlot};
ghost use Rattle.ild_data.specs.declared.hamt_shape.HamtShape.{HamtShape};
ghost use Rattle.ild_node_slots.specs.Steps.{IsAtSlot};
ghost use Rattle.ild_node_slots.specs.Views.{HasSlots, SlotHolds};
ghost use Rattle.ild_node_slots.specs.declared.view.NodeView.{NodeView};
ghost use Rattle.ild_open_nodes.specs.Weights.{weight, weights};

use ild_data::HamtShape;
use ild_node_slots::{NodeSlot, NodeView, Slots};

// How many entries at least stand in a slot and beneath it, where each child has more than a bucket takes.
fn slot_weight(shape: HamtShape, slot: NodeSlot<'_>) -> usize
    ensures { (v : NodeView) (slots : List TrieSlot) (i : ℕ) (s : TrieSlot) → SlotHolds v slots i slot.entry s → result ≡ weight shape s }
{
    match slot {
        NodeSlot::Empty => 0,
        NodeSlot::Bucket(bucket) => bucket.len(),
        NodeSlot::Child(_) => shape.bucket as usize + 1,
    }
}

// The same of the next slot of a walk.
fn next_weight(shape: HamtShape, slots: &mut Slots<'_>) -> usize
    ensures walks { (v : NodeView) (ss : List TrieSlot) (i : ℕ) → HasSlots shape v ss → IsAtSlot v ss i slots.old → i < length ss → IsAtSlot v ss (i + 1) slots.new }
    ensures weighs { (v : NodeView) (ss : List TrieSlot) (i : ℕ) (s : TrieSlot) → HasSlots shape v ss → IsAtSlot v ss i slots.old → slice_get ss i ≡ Some s → result ≡ weight shape s }
{
    match slots.next() {
        Some(slot) => slot_weight(shape, slot),
        None => 0,
    }
}

/// Whether more entries than a bucket takes stand in a node and beneath it, where each of its children has so many.
pub(crate) fn is_many(view: NodeView<'_>) -> bool
    ensures many { (p : HamtShape) (slots : List TrieSlot) → HasSlots p view.entry slots → result ≡ true → p.bucket < weights p slots }
    ensures few { (p : HamtShape) (slots : List TrieSlot) → HasSlots p view.entry slots → result ≡ false → weights p slots ≤ p.bucket }
{
    let shape = view.shape();
    let mut left = shape.bucket as usize + 1;
    let mut slots = view.slots();
    for _ in 0..shape.slots() {
        left = left.saturating_sub(next_weight(shape, &mut slots));
    }
    left == 0
}
