//! Whether a bucket takes all entries beneath a node.
ghost use Rattle.std.specs.Prelude.{◌≡◌, ◌≢◌, ◌<◌, ◌+◌, ℕ, List, nat_le, slice_index_or, slice_set, length, Some};
ghost use Rattle.ild_data.specs.Data.{Data};
ghost use Rattle.ild_data.specs.Trie.{TrieSlot, empty, slots_at};
ghost use Rattle.ild_node.specs.NewSlots.{slot_seen};
ghost use Rattle.ild_node_slots.specs.Steps.{IsAtSlot};
ghost use Rattle.ild_node_slots.specs.Views.{HasSlots};
ghost use Rattle.ild_node_slots.specs.declared.view.NodeView.{NodeView};
ghost use Rattle.ild_hamt_climb.specs.inside.Gathering.{weight};
ghost use Rattle.ild_hamt_climb.specs.Seen.{IsReadOf};

use ild_data::HamtShape;
use ild_node::{NewHold, NodeSlot, NodeView, Slots};

fn new_weight(shape: HamtShape, slot: &Option<NewHold>) -> usize
    ensures { result ≡ weight shape.bucket (slot_seen slot.now) }
{
    match slot {
        None => 0,
        Some(NewHold::Bucket(rows)) => rows.len(),
        Some(NewHold::Child(_)) => shape.bucket as usize + 1,
    }
}

fn read_weight(shape: HamtShape, slot: NodeSlot<'_>) -> usize
    ensures { (s : TrieSlot) → IsReadOf slot.entry s → result ≡ weight shape.bucket s }
{
    match slot {
        NodeSlot::Empty => 0,
        NodeSlot::Bucket(bucket) => bucket.len(),
        NodeSlot::Child(_) => shape.bucket as usize + 1,
    }
}

// The weight of the next slot of a walk, or nothing for slot i.
fn next_weight(shape: HamtShape, slots: &mut Slots<'_>, j: usize, i: u8) -> usize
    ensures walks { (v : NodeView) (ss : List TrieSlot) → HasSlots shape v ss → IsAtSlot v ss j slots.old → j < length ss → IsAtSlot v ss (j + 1) slots.new }
    ensures weighs { (v : NodeView) (ss : List TrieSlot) → HasSlots shape v ss → IsAtSlot v ss j slots.old → j < length ss → j ≢ i → result ≡ weight shape.bucket (slice_index_or ss j empty) }
    ensures passes { j ≡ i → result ≡ 0 }
{
    match slots.next() {
        Some(slot) => {
            if j == i as usize {
                return 0;
            }
            read_weight(shape, slot)
        }
        None => 0,
    }
}

/// Whether a bucket takes all entries of a node whose slot i is exchanged for another. No more slots are looked at than it
/// takes to tell.
pub(crate) fn is_few(shape: HamtShape, view: NodeView<'_>, i: u8, slot: &Option<NewHold>) -> bool
    ensures { (h : List ℕ → List ℕ) (left depth : ℕ) (ss : List TrieSlot) (gs : List (List ℕ × Data)) → HasSlots shape view.entry ss → i < length ss
        → slots_at h shape left depth gs ≡ Some (slice_set ss i (slot_seen slot.now)) → result ≡ nat_le (length gs) shape.bucket }
{
    let mut count = new_weight(shape, slot);
    let mut slots = view.slots();
    for j in 0..shape.slots() {
        if count > shape.bucket as usize {
            return false;
        }
        count = count.saturating_add(next_weight(shape, &mut slots, j, i));
    }
    count <= shape.bucket as usize
}
