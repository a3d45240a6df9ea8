//! A HAMT from its entries.
ghost use Rattle.std.specs.Prelude.{◌≡◌, ◌∷◌, ◌-◌, IfOk};
ghost use Rattle.std.specs.List.{AllByRecursion};
ghost use Rattle.ild_data.specs.TrieShape.{trie_levels};
ghost use Rattle.ild_edges.specs.Told.{BothTold};
ghost use Rattle.ild_node.specs.Rows.{AreRows};
ghost use Rattle.ild_typed.specs.Nested.{IsBlock};
ghost use Rattle.ild_bulk.specs.Build.{Builds, is_long, any_long, plan_of};
ghost use Rattle.ild_bulk.specs.Children.{AddsLinked};
ghost use Rattle.ild_bulk.specs.Planned.{PlansNode};

use crate::entries::entries_of;
use crate::fault::PlanFault;
use crate::plan::plan_marked;
use crate::put::put_all;
use ild_data::{HamtShape, KeyHash, LONGEST_BLOCK, NamedBlock, Octets};
use ild_edges::Store;
use ild_node::{HamtFault, Rows};
use std::alloc::Global;

/// Whether a block is longer than a block may be.
pub fn is_long(block: &Octets) -> bool
    ensures { result ≡ is_long block.now }
{
    block.as_slice().len() > LONGEST_BLOCK
}

/// Whether one of the blocks is.
pub fn any_long(blocks: &[NamedBlock]) -> bool
    ensures { result ≡ any_long blocks.now }
{
    let mut long = false;
    for block in blocks {
        long |= is_long(block.block());
    }
    long
}

/// The root node of the HAMT of this shape of these entries. The blocks beneath it are appended, each behind those beneath it.
pub fn plan_rows<H: KeyHash>(
    alloc: Global,
    shape: HamtShape,
    entries: &Rows,
    keys: &H,
    blocks: &mut Vec<NamedBlock>,
) -> Result<Octets, PlanFault>
    ensures rows { AreRows entries.now }
    ensures plans { PlansNode H.hash_of shape (trie_levels shape - 0) 0 entries.now result blocks.old.items blocks.new.items }
{
    let spelled = entries_of(alloc, entries.as_slice(), keys)?;
    let bytes = spelled.out.finish();
    plan_marked(alloc, shape, bytes.as_slice(), &spelled.marks, blocks)
}

/// The root node of the HAMT of this shape of these entries. The blocks beneath it are put, each behind those beneath it; the root isn't
/// put. Nothing is put where there is no such HAMT, or where one of its nodes is too long.
pub fn from_entries<K: Store, H: KeyHash>(
    alloc: Global,
    shape: HamtShape,
    entries: &Rows,
    keys: &H,
    store: &mut K,
) -> Result<Octets, HamtFault>
    ensures built { Builds H.hash_of shape entries.now (K.moment store.old) result (K.moment store.new) }
    // The root and the blocks beneath it are such as a reader of blocks accepts.
    ensures within { IfOk result (λ root. AllByRecursion IsBlock (root ∷ plan_of H.hash_of shape entries.now)) }
    // However it ends, each block that it added has all its children held.
    ensures children { BothTold (K.moment store.old).blocks (K.moment store.new).blocks AddsLinked }
{
    let mut blocks = Vec::new(alloc);
    let root = plan_rows(alloc, shape, entries, keys, &mut blocks)?;
    let long = is_long(&root) | any_long(&blocks);
    if long {
        return Err(HamtFault::Size);
    }
    put_all(&blocks, store)?;
    Ok(root)
}
