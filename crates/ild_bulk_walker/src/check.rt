//! Checking a whole HAMT.
ghost use Rattle.std.specs.Prelude.{◌≡◌, ◌+◌, List, IfOk};
ghost use Rattle.ild_data.specs.Trie.{TrieSlot};
ghost use Rattle.ild_data.specs.declared.hamt_shape.HamtShape.{HamtShape};
ghost use Rattle.ild_node_slots.specs.Views.{HasSlots};
ghost use Rattle.ild_bulk_walker.specs.Checked.{Checks};

use crate::walker::Walker;
use ild_data::{BlockId, KeyHash};
use ild_edges::Store;
use ild_node_slots::{HamtFault, NodeView};
use std::alloc::Global;

/// Walks over all entries beneath a root, which stands in the block of this id, and counts them.
/// Each block beneath it is got once; one that is refused is as `Walker::next` has it.
pub fn check_tree<K: Store, H: KeyHash>(
    alloc: Global,
    root: NodeView<'_>,
    at: BlockId,
    keys: &H,
    store: &mut K,
) -> Result<u64, HamtFault>
    ensures { (p : HamtShape) (slots : List TrieSlot) → HasSlots p root.entry slots → Checks H.hash_of p slots at.0 (K.moment store.old) result (K.moment store.new) }
{
    let mut walker = Walker::new(alloc, root, at)?;
    while walker.advance(keys, store)? {}
    Ok(walker.given())
}
