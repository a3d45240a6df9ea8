//! Listing the entries of a whole HAMT.
ghost use Rattle.std.specs.Prelude.{◌≡◌, ◌+◌, List, IfOk};
ghost use Rattle.std.specs.List.Sorted.{IsPermutation};
ghost use Rattle.ild_data.specs.Trie.{TrieSlot};
ghost use Rattle.ild_data.specs.declared.hamt_shape.HamtShape.{HamtShape};
ghost use Rattle.ild_node_slots.specs.Views.{HasSlots};
ghost use Rattle.ild_bulk_walker.specs.Checked.{InKeyOrder, Walks};

use crate::row::Row;
use crate::walker::Walker;
use ild_data::{BlockId, KeyHash};
use ild_data_order::sort_by_key;
use ild_edges::Store;
use ild_node_slots::{HamtFault, NodeView};
use std::alloc::Global;

// Brings rows into the order of keys.
fn sort_rows(alloc: Global, rows: &mut Vec<Row>)
    ensures same { IsPermutation rows.old.items rows.new.items }
    ensures order { InKeyOrder rows.new.items }
{
    // That no two are alike is known of the entries of a HAMT.
    let _apart = sort_by_key(alloc, rows);
}

/// All entries beneath a root, which stands in the block of this id, in the order of their keys: the shorter first, then bytewise.
/// Each block beneath it is got once; one that is refused is as `Walker::next` has it.
pub fn walk<K: Store, H: KeyHash>(
    alloc: Global,
    root: NodeView<'_>,
    at: BlockId,
    keys: &H,
    store: &mut K,
) -> Result<Vec<Row>, HamtFault>
    ensures { (p : HamtShape) (slots : List TrieSlot) → HasSlots p root.entry slots → Walks H.hash_of p slots at.0 (K.moment store.old) result (K.moment store.new) }
{
    let mut walker = Walker::new(alloc, root, at)?;
    let mut rows = Vec::new(alloc);
    while let Some(row) = walker.next(keys, store)? {
        rows.push(row)?;
    }
    sort_rows(alloc, &mut rows);
    Ok(rows)
}
