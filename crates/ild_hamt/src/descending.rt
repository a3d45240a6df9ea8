//! Reading the nodes on a key's way.
ghost use Rattle.std.specs.Prelude.{◌≡◌, ◌<◌, ◌+◌, ◌&&◌, nat_le, is_some, List};
ghost use Rattle.ild_data.specs.Trie.{TrieSlot};
ghost use Rattle.ild_data.specs.declared.hamt_shape.HamtShape.{HamtShape};
ghost use Rattle.ild_data.specs.TrieShape.{trie_levels};
ghost use Rattle.ild_node_slots.specs.Views.{HasSlots};
ghost use Rattle.ild_hamt.specs.Descending.{Descends};

use crate::ending::{end_slot, is_full};
use crate::hashing::other_hashes;
use crate::reaching::{child_at, reach};
use crate::trail::Trail;
use ild_cbor::{BlockWhy, Why};
use ild_data::{BlockId, HamtShape, KeyHash, Txt};
use ild_edges::Store;
use ild_node::{HamtFault, NodeView, has_level};
use std::alloc::Global;

// Whether the node at a depth has a child, for which no level is left.
fn is_beyond(shape: HamtShape, child: Option<BlockId>, depth: u32) -> bool
    requires { depth < trie_levels shape }
    ensures { result ≡ (is_some child && nat_le (trie_levels shape) (depth + 1)) }
{
    child.is_some() && !has_level(shape, depth as usize + 1)
}

// The nodes on a key's way beneath a root of this shape.
fn descend_in<K: Store, H: KeyHash>(
    alloc: Global,
    shape: HamtShape,
    root: NodeView<'_>,
    key: &str,
    keys: &H,
    store: &mut K,
) -> Result<Trail, HamtFault>
    ensures { (slots : List TrieSlot) → HasSlots shape root.entry slots → Descends H.hash_of shape key.now slots (K.moment store.old) result (K.moment store.new) }
{
    let hash = keys.hash(key.as_bytes());
    let mut blocks = Vec::new(alloc);
    let mut depth: u32 = 0;
    let mut next = child_at(shape, root, &hash, 0);
    while let Some(id) = next {
        depth += 1;
        let reached = reach(shape, &id, &hash, depth, store)?;
        if is_beyond(shape, reached.child, depth) {
            return Err(HamtFault::Block {
                id,
                why: BlockWhy::Shape(Why::Trie),
            });
        }
        next = reached.child;
        blocks.push(reached.block)?;
    }
    let slot = end_slot(shape, root, &blocks, &hash, depth);
    let others = other_hashes(alloc, slot, key, keys)?;
    let exhausted = is_full(shape, slot, key, &others, &hash, depth + 1);
    let key = Txt::of(alloc, key)?;
    Ok(Trail {
        shape,
        key,
        hash,
        depth,
        blocks,
        others,
        exhausted,
    })
}

/// The nodes on a key's way beneath a root, each read once. A node at the last level that has a child on the way is refused,
/// and the child isn't read.
pub fn descend<K: Store, H: KeyHash>(
    alloc: Global,
    root: NodeView<'_>,
    key: &str,
    keys: &H,
    store: &mut K,
) -> Result<Trail, HamtFault>
    ensures { (p : HamtShape) (slots : List TrieSlot) → HasSlots p root.entry slots → Descends H.hash_of p key.now slots (K.moment store.old) result (K.moment store.new) }
{
    descend_in(alloc, root.shape(), root, key, keys, store)
}
