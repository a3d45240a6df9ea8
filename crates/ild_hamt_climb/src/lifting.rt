//! From the end of a key's way up to the root, node by node.
ghost use Rattle.std.specs.Prelude.{◌≡◌, ◌≤◌, ◌<◌, ◌^◌, ℕ, suc, false, All, List, length, slice_set, Some, IfOk};
ghost use Rattle.ild_data.specs.ByteOrder.{IsInOrder};
ghost use Rattle.ild_data.specs.Data.{Data};
ghost use Rattle.ild_data.specs.Trie.{TrieSlot, empty, is_child, slots_at};
ghost use Rattle.ild_data.specs.TrieShape.{index, trie_levels};
ghost use Rattle.ild_hamt_trie.specs.Collapse.{sized};
ghost use Rattle.ild_node.specs.NewSlots.{IsFilledSlot, slot_seen};
ghost use Rattle.ild_node_slots.specs.Views.{HasSlots, view_shape};
ghost use Rattle.ild_hamt_climb.specs.NodeBytes.{IsNodeBlock, IsNodeBytes};
ghost use Rattle.ild_hamt_climb.specs.Planning.{ClimbsOver, IsWritten, LiftsOver};
ghost use Rattle.ild_hamt_climb.specs.Rewriting.{ClimbState, DiffersAt, HasRoot, Lifts, way_up};
ghost use Rattle.ild_bulk_walker.specs.Gives.{IsNodeOf};
ghost use Rattle.ild_hamt_climb.specs.Way.{IsRootOf};

use crate::exchanging::exchanged;
use crate::gathering::{put_next, rows_of};
use crate::reading::view_in;
use crate::weighing::is_few;
use ild_data::{HamtShape, NamedBlock, Octets};
use ild_node::{NewHold, NodeView, Rows, index};
use std::alloc::{AllocError, Global};

/// The slot of rows that a bucket of a HAMT of this shape takes: a bucket, or none where there are no rows.
pub fn few_slot(shape: HamtShape, rows: Rows) -> Option<NewHold>
    ensures filled { IsFilledSlot shape result }
    ensures same { length rows ≤ shape.bucket → slot_seen result ≡ sized shape.bucket empty rows }
    ensures bare { is_child (slot_seen result) ≡ false }
{
    let count = rows.len();
    if count == 0 || count > shape.bucket as usize {
        return None;
    }
    Some(NewHold::Bucket(rows))
}

// The slot of all entries of a node, whose slot i is exchanged for another, where a bucket takes them.
fn gathered(
    alloc: Global,
    shape: HamtShape,
    view: NodeView<'_>,
    i: u8,
    slot: Option<NewHold>,
) -> Result<Option<NewHold>, AllocError>
    requires { view_shape view ≡ shape }
    ensures filled { IfOk result (IsFilledSlot shape) }
    ensures same { (h : List ℕ → List ℕ) (left depth : ℕ) (ss : List TrieSlot) (gs : List (List ℕ × Data)) → HasSlots shape view.entry ss → i < length ss → IsInOrder gs
        → slots_at h shape left depth gs ≡ Some (slice_set ss i (slot_seen slot)) → length gs ≤ shape.bucket → IfOk result (λ s. slot_seen s ≡ sized shape.bucket empty gs) }
    ensures bare { IfOk result (λ s. is_child (slot_seen s) ≡ false) }
{
    let mut rows = rows_of(alloc, slot);
    let mut slots = view.slots();
    for j in 0..shape.slots() {
        put_next(alloc, &mut slots, j, i, &mut rows)?;
    }
    Ok(few_slot(shape, rows))
}

// The slot that a node, whose slot i is exchanged for another, has in the node above: a bucket, where that takes all entries,
// and else the link of its block, which is appended.
fn lift(
    alloc: Global,
    shape: HamtShape,
    view: NodeView<'_>,
    i: u8,
    slot: Option<NewHold>,
    plan: &mut Vec<NamedBlock>,
) -> Result<Option<NewHold>, AllocError>
    requires own { view_shape view ≡ shape }
    requires filled { IsFilledSlot shape slot }
    ensures filled { IfOk result (IsFilledSlot shape) }
    ensures lifts { (h : List ℕ → List ℕ) (left depth : ℕ) (ss : List TrieSlot) (gs : List (List ℕ × Data)) → HasSlots shape view.entry ss → i < length ss → IsInOrder gs
        → slots_at h shape left depth gs ≡ Some (slice_set ss i (slot_seen slot)) → IfOk result (λ s. Lifts h shape (suc left) depth gs (slot_seen s) plan.old.items plan.new.items) }
    ensures over { (ss : List TrieSlot) → HasSlots shape view.entry ss → i < length ss → IfOk result (λ s. LiftsOver ss (slot_seen slot) (slot_seen s) plan.old.items plan.new.items) }
{
    if is_few(shape, view, i, &slot) {
        return gathered(alloc, shape, view, i, slot);
    }
    let block = NamedBlock::of(exchanged(alloc, shape, view, i, &slot)?);
    let id = block.id();
    plan.push(block)?;
    Ok(Some(NewHold::Child(id)))
}

// The index of a hash at a depth.
fn index_at(shape: HamtShape, hash: &[u8; 32], depth: u32) -> u8
    ensures index { depth < trie_levels shape → result ≡ index shape hash.now depth }
    ensures slot { result < 2 ^ shape.width }
{
    match index(hash, depth, shape) {
        Some(i) => i,
        None => 0,
    }
}

// The same of a node in its block, at the slot of a hash.
fn lift_block(
    alloc: Global,
    shape: HamtShape,
    block: &Octets,
    hash: &[u8; 32],
    depth: u32,
    slot: Option<NewHold>,
    plan: &mut Vec<NamedBlock>,
) -> Result<Option<NewHold>, AllocError>
    requires known { IsNodeBytes shape block.now }
    requires filled { IsFilledSlot shape slot }
    ensures filled { IfOk result (IsFilledSlot shape) }
    ensures lifts { (h : List ℕ → List ℕ) (left : ℕ) (ss : List TrieSlot) (gs : List (List ℕ × Data)) → IsNodeOf shape block.now ss → depth < trie_levels shape → IsInOrder gs
        → slots_at h shape left depth gs ≡ Some (slice_set ss (index shape hash.now depth) (slot_seen slot))
        → IfOk result (λ s. Lifts h shape (suc left) depth gs (slot_seen s) plan.old.items plan.new.items) }
    ensures node { IsNodeBlock shape block.now }
    ensures over { (ss : List TrieSlot) → IsNodeOf shape block.now ss → IfOk result (λ s. LiftsOver ss (slot_seen slot) (slot_seen s) plan.old.items plan.new.items) }
{
    let view = view_in(shape, block);
    let i = index_at(shape, hash, depth);
    lift(alloc, shape, view, i, slot, plan)
}

/// The new root node of a HAMT of this shape, from the new slot at the end of a way. The blocks of the nodes in between are
/// appended, each behind the one beneath it.
pub fn climb(
    alloc: Global,
    shape: HamtShape,
    root: NodeView<'_>,
    blocks: Vec<Octets>,
    hash: &[u8; 32],
    depth: u32,
    slot: Option<NewHold>,
    plan: &mut Vec<NamedBlock>,
) -> Result<Octets, AllocError>
    requires known { All (IsNodeBytes shape) blocks.items }
    requires filled { IsFilledSlot shape slot }
    ensures climbs { (h : List ℕ → List ℕ) (k : List ℕ) (slots : List TrieSlot) (es fs : List (List ℕ × Data)) → HasSlots shape root.entry slots → IsRootOf h shape es slots → DiffersAt k es fs
        → hash.now ≡ h k → ClimbState h shape k es fs blocks.items depth (slot_seen slot) plan.old.items → IfOk result (λ b. HasRoot h shape fs b × (plan.new.items ≡ way_up h shape k fs)) }
    // Of whatever trie the nodes are.
    ensures over { IfOk result (λ b. ClimbsOver shape blocks.items (slot_seen slot) plan.old.items plan.new.items) }
    ensures written { (slots : List TrieSlot) → HasSlots shape root.entry slots → IfOk result (IsWritten shape) }
{
    let mut blocks = blocks;
    let mut depth = depth;
    let mut slot = slot;
    while let Some(block) = blocks.pop() {
        slot = lift_block(alloc, shape, &block, hash, depth, slot, plan)?;
        depth = depth.saturating_sub(1);
    }
    exchanged(alloc, shape, root, index_at(shape, hash, 0), &slot)
}
