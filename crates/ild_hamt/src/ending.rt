//! Where a key's way ends.
ghost use Rattle.std.specs.Prelude.{◌≡◌, ◌≤◌, ◌<◌, ◌-◌, ◌==◌, ℕ, cond, not, is_some, All, List, length};
ghost use Rattle.std.specs.FinMap.{find};
ghost use Rattle.ild_data.specs.ByteOrder.{bytewise, without};
ghost use Rattle.ild_data.specs.Trie.{TrieSlot, bucket_entries};
ghost use Rattle.ild_data.specs.TrieShape.{trie_levels, index};
ghost use Rattle.ild_node_slots.specs.Views.{HasSlots};
ghost use Rattle.ild_hamt_climb.specs.Known.{SomeSlot};
ghost use Rattle.ild_hamt_climb.specs.NodeBytes.{IsNodeBytes};
ghost use Rattle.ild_hamt_climb.specs.Seen.{IsReadOf};
ghost use Rattle.ild_hamt_climb.specs.Way.{slot_for};
ghost use Rattle.ild_hamt.specs.Ends.{EndsAt, agree, agreeing_hashes, hashes_of, is_full};

use ild_data::{HamtShape, Octets};
use ild_hamt_climb::view_in;
use ild_node::{NodeSlot, NodeView, has_level, index_of};

/// The slot of a hash in a node at a depth.
pub(crate) fn slot_at<'b>(
    shape: HamtShape,
    view: NodeView<'b>,
    hash: &[u8; 32],
    depth: u32,
) -> NodeSlot<'b>
    requires { depth < trie_levels shape }
    ensures known { ∥ SomeSlot result ∥₁ }
    ensures shows { (slots : List TrieSlot) → HasSlots shape view.entry slots → IsReadOf result (slot_for shape hash.now depth slots) }
{
    view.slot(index_of(hash, depth, shape))
}

/// The slot in which a way through these blocks ends.
pub(crate) fn end_slot<'b>(
    shape: HamtShape,
    root: NodeView<'b>,
    blocks: &'b [Octets],
    hash: &[u8; 32],
    depth: u32,
) -> NodeSlot<'b>
    requires { All (IsNodeBytes shape) blocks.now }
    ensures known { ∥ SomeSlot result ∥₁ }
    ensures shows { (slots last : List TrieSlot) → HasSlots shape root.entry slots → EndsAt shape slots blocks.now last → depth ≡ length blocks.now
        → depth < trie_levels shape → IsReadOf result (slot_for shape hash.now depth last) }
{
    if !has_level(shape, depth as usize) {
        return NodeSlot::Empty;
    }
    let count = blocks.len();
    if count == 0 {
        return slot_at(shape, root, hash, depth);
    }
    let view = view_in(shape, &blocks[count - 1]);
    slot_at(shape, view, hash, depth)
}

// Whether two hashes have the same index at a depth.
fn same_index(shape: HamtShape, a: &[u8; 32], b: &[u8; 32], depth: u32) -> bool
    requires { depth < trie_levels shape }
    ensures { result ≡ (index shape a.now depth == index shape b.now depth) }
{
    index_of(a, depth, shape) == index_of(b, depth, shape)
}

// Whether two hashes agree from a depth on.
fn agrees(shape: HamtShape, a: &[u8; 32], b: &[u8; 32], depth: u32) -> bool
    ensures { result ≡ agree shape a.now b.now (trie_levels shape - depth) depth }
{
    if !has_level(shape, depth as usize) {
        return true;
    }
    same_index(shape, a, b, depth) && agrees(shape, a, b, depth + 1)
}

// 1 where a hash agrees with one from a depth on, and else 0.
fn agreeing_one(shape: HamtShape, other: &[u8; 32], hash: &[u8; 32], depth: u32) -> usize
    ensures same { result ≡ cond (agree shape other.now hash.now (trie_levels shape - depth) depth) 1 0 }
    ensures small { result ≤ 1 }
{
    if agrees(shape, other, hash, depth) {
        1
    } else {
        0
    }
}

// How many hashes agree with one from a depth on.
fn count(shape: HamtShape, hashes: &[[u8; 32]], hash: &[u8; 32], depth: u32) -> usize
    ensures { result ≡ length (agreeing_hashes shape hash.now depth hashes.now) }
{
    let mut count: usize = 0;
    for other in hashes {
        count = count.saturating_add(agreeing_one(shape, other, hash, depth));
    }
    count
}

// Whether a key is none of those in a slot.
fn is_missing(slot: NodeSlot<'_>, key: &str) -> bool
    ensures { (s : TrieSlot) → IsReadOf slot.entry s → result ≡ not (is_some (find bytewise key.now (bucket_entries s))) }
{
    match slot {
        NodeSlot::Bucket(bucket) => match bucket.find(key) {
            Some(_) => false,
            None => true,
        },
        NodeSlot::Empty => true,
        NodeSlot::Child(_) => true,
    }
}

/// Whether a key that isn't in a slot has no place there, by the hashes of the keys of the other entries.
pub(crate) fn is_full(
    shape: HamtShape,
    slot: NodeSlot<'_>,
    key: &str,
    others: &[[u8; 32]],
    hash: &[u8; 32],
    depth: u32,
) -> bool
    ensures { (h : List ℕ → List ℕ) (s : TrieSlot) → IsReadOf slot.entry s → others.now ≡ hashes_of h (without key.now (bucket_entries s))
        → result ≡ is_full h shape key.now hash.now depth (bucket_entries s) }
{
    let many = count(shape, others, hash, depth);
    is_missing(slot, key) & (many >= shape.bucket as usize)
}
