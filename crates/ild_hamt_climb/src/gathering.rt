//! The entries that slots hold, gathered as rows.
ghost use Rattle.std.specs.Prelude.{◌≡◌, ◌≢◌, ◌<◌, ◌+◌, ℕ, [], List, slice_get, slice_index_or, length, IfOk, OnOk};
ghost use Rattle.ild_data.specs.ByteOrder.{IsInOrder, without};
ghost use Rattle.ild_data.specs.Data.{Data};
ghost use Rattle.ild_data.specs.Trie.{TrieSlot, empty, bucket_entries};
ghost use Rattle.ild_data.specs.declared.hamt_shape.HamtShape.{HamtShape};
ghost use Rattle.ild_node.specs.NewSlots.{slot_seen};
ghost use Rattle.ild_node_slots.specs.Steps.{IsAtSlot};
ghost use Rattle.ild_node_slots.specs.Views.{HasEntries, HasSlots};
ghost use Rattle.ild_node_slots.specs.Walks.{SomeWalk};
ghost use Rattle.ild_node_slots.specs.declared.view.NodeView.{NodeView};
ghost use Rattle.ild_hamt_climb.specs.inside.Gathering.{put_each, some_entry};
ghost use Rattle.ild_hamt_climb.specs.Known.{SomeBucket, SomeSlot};
ghost use Rattle.ild_hamt_climb.specs.Seen.{IsReadOf};

use ild_node::{Bucket, NewHold, NodeSlot, Rows, Slots};
use std::alloc::{AllocError, Global};

// Puts an entry of a bucket among rows.
fn put_entry(alloc: Global, bucket: Bucket<'_>, i: usize, rows: &mut Rows) -> Result<(), AllocError>
    requires { ∥ SomeBucket bucket ∥₁ }
    ensures { (es : List (List ℕ × Data)) → HasEntries bucket.entry es → OnOk result (rows.new ≡ put_each (some_entry (slice_get es i)) rows.old) }
{
    match bucket.entry(i) {
        Some((key, value)) => rows.put(alloc, key, &value),
        None => Ok(()),
    }
}

// The same, unless it is the entry of a key.
fn put_other(
    alloc: Global,
    bucket: Bucket<'_>,
    i: usize,
    key: &str,
    rows: &mut Rows,
) -> Result<(), AllocError>
    requires { ∥ SomeBucket bucket ∥₁ }
    ensures { (es : List (List ℕ × Data)) → HasEntries bucket.entry es → OnOk result (rows.new ≡ put_each (without key.now (some_entry (slice_get es i))) rows.old) }
{
    match bucket.entry(i) {
        Some((other, value)) => {
            if other == key {
                return Ok(());
            }
            rows.put(alloc, other, &value)
        }
        None => Ok(()),
    }
}

/// The rows of a bucket without that of a key.
pub fn rows_without(alloc: Global, bucket: Bucket<'_>, key: &str) -> Result<Rows, AllocError>
    requires { ∥ SomeBucket bucket ∥₁ }
    ensures { (es : List (List ℕ × Data)) → HasEntries bucket.entry es → IsInOrder es → IfOk result (λ rows. rows ≡ without key.now es) }
{
    let mut rows = Rows::new(alloc);
    for i in 0..bucket.len() {
        put_other(alloc, bucket, i, key, &mut rows)?;
    }
    Ok(rows)
}

// Puts the entries of a bucket among rows.
fn put_bucket(alloc: Global, bucket: Bucket<'_>, rows: &mut Rows) -> Result<(), AllocError>
    requires { ∥ SomeBucket bucket ∥₁ }
    ensures { (es : List (List ℕ × Data)) → HasEntries bucket.entry es → OnOk result (rows.new ≡ put_each es rows.old) }
{
    for i in 0..bucket.len() {
        put_entry(alloc, bucket, i, rows)?;
    }
    Ok(())
}

fn put_slot(alloc: Global, slot: NodeSlot<'_>, rows: &mut Rows) -> Result<(), AllocError>
    requires { ∥ SomeSlot slot ∥₁ }
    ensures { (s : TrieSlot) → IsReadOf slot.entry s → OnOk result (rows.new ≡ put_each (bucket_entries s) rows.old) }
{
    match slot {
        NodeSlot::Bucket(bucket) => put_bucket(alloc, bucket, rows),
        NodeSlot::Empty => Ok(()),
        NodeSlot::Child(_) => Ok(()),
    }
}

/// Puts the entries of the next slot of a walk among rows, unless it is slot i.
pub(crate) fn put_next(
    alloc: Global,
    slots: &mut Slots<'_>,
    j: usize,
    i: u8,
    rows: &mut Rows,
) -> Result<(), AllocError>
    requires { ∥ SomeWalk j slots.old ∥₁ }
    ensures walks { (p : HamtShape) (v : NodeView) (ss : List TrieSlot) → HasSlots p v ss → IsAtSlot v ss j slots.old → j < length ss → IsAtSlot v ss (j + 1) slots.new }
    ensures puts { (p : HamtShape) (v : NodeView) (ss : List TrieSlot) → HasSlots p v ss → IsAtSlot v ss j slots.old → j < length ss → j ≢ i
        → OnOk result (rows.new ≡ put_each (bucket_entries (slice_index_or ss j empty)) rows.old) }
    ensures stays { j ≡ i → OnOk result (rows.new ≡ rows.old) }
{
    match slots.next() {
        Some(slot) => {
            if j == i as usize {
                return Ok(());
            }
            put_slot(alloc, slot, rows)
        }
        None => Ok(()),
    }
}

/// The rows of a bucket in a slot to be written, or none.
pub(crate) fn rows_of(alloc: Global, slot: Option<NewHold>) -> Rows
    ensures { result ≡ bucket_entries (slot_seen slot) }
{
    match slot {
        Some(NewHold::Bucket(rows)) => rows,
        Some(NewHold::Child(_)) => Rows::new(alloc),
        None => Rows::new(alloc),
    }
}
