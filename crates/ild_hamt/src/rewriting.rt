//! The new way of a key, planned whole and then put.
ghost use Rattle.std.specs.Prelude.{◌≡◌, ◌-◌, ℕ, List, IfOk};
ghost use Rattle.ild_data.specs.ByteOrder.{without};
ghost use Rattle.ild_data.specs.TrieShape.{trie_levels};
ghost use Rattle.ild_node.specs.NewSlots.{IsFilledSlot, slot_seen};
ghost use Rattle.ild_bulk.specs.Planned.{PlansSlot};
ghost use Rattle.ild_hamt.specs.Descending.{trail_shape};
ghost use Rattle.ild_hamt.specs.Edits.{CausedBy};
ghost use Rattle.ild_hamt.specs.Ends.{hashes_of};
ghost use Rattle.ild_hamt.specs.Rewriting.{EditsTrail, RewritesTrail};

use crate::hashing::keyed;
use crate::trail::Trail;
use ild_bulk::{PlanFault, plan_keyed};
use ild_data::{NamedBlock, Octets};
use ild_edges::Store;
use ild_hamt_climb::{climb, few_slot, put_way};
use ild_node::{HamtFault, NewHold, NodeView, Rows};
use std::alloc::Global;

/// The slot of rows at the end of a trail, of which only the key's may be new, in the node above them. The blocks of their own node and of those beneath it, where a bucket doesn't take
/// them, are appended, each behind those beneath it.
pub(crate) fn slot_of(
    alloc: Global,
    rows: Rows,
    trail: &Trail,
    depth: u32,
    plan: &mut Vec<NamedBlock>,
) -> Result<Option<NewHold>, PlanFault>
    ensures filled { IfOk result (IsFilledSlot (trail_shape trail.now)) }
    ensures plans { (h : List ℕ → List ℕ) → trail.now.hash ≡ h trail.now.key → trail.now.others.items ≡ hashes_of h (without trail.now.key rows)
        → PlansSlot h (trail_shape trail.now) (trie_levels (trail_shape trail.now) - depth) depth rows result plan.old.items plan.new.items }
{
    if rows.len() <= trail.shape.bucket as usize {
        return Ok(few_slot(trail.shape, rows));
    }
    let keyed = keyed(
        alloc,
        rows.as_slice(),
        trail.key.as_str(),
        &trail.hash,
        &trail.others,
    )?;
    plan_keyed(alloc, trail.shape, &keyed, depth, plan)
}

/// The new root node, from the new slot at the end of a way. The other nodes on the way are put behind those that are planned,
/// each behind the one beneath it. Nothing is put where one of them is too long.
pub(crate) fn rewrite<K: Store>(
    alloc: Global,
    root: NodeView<'_>,
    trail: Trail,
    slot: Option<NewHold>,
    plan: Vec<NamedBlock>,
    store: &mut K,
) -> Result<Octets, HamtFault>
    requires { IsFilledSlot (trail_shape trail) slot }
    ensures gets { (K.moment store.new).gets ≡ (K.moment store.old).gets }
    ensures rewrites { RewritesTrail root.entry trail (slot_seen slot) plan.items (K.moment store.old) result (K.moment store.new) }
    ensures caused { CausedBy (K.moment store.old) result (K.moment store.new) }
    // Of whatever trie the nodes are.
    ensures edits { EditsTrail root.entry trail (slot_seen slot) plan.items (K.moment store.old) result (K.moment store.new) }
{
    let mut plan = plan;
    let hash = trail.hash;
    let depth = trail.depth;
    let shape = trail.shape;
    let root = climb(
        alloc,
        shape,
        root,
        trail.blocks,
        &hash,
        depth,
        slot,
        &mut plan,
    )?;
    put_way(root, &plan, store)
}
