//! A path followed from block to block; the nodes on its way are added to a proof.
ghost use Rattle.std.specs.Prelude.{◌≤◌, ◌≡◌, ◌+◌, ◌∷◌, IfOk, Some};
ghost use Rattle.ild_data.specs.Data.{Data};
ghost use Rattle.ild_data.specs.Spell.{id_of};
ghost use Rattle.ild_inclusion_prove.specs.inside.Adds.{AddsWay, RootsAre};
ghost use Rattle.ild_inclusion_prove.specs.inside.Faults.{IsAlone, told_as};
ghost use Rattle.ild_open_parts.specs.Sites.{Site};
ghost use Rattle.ild_path_found.specs.Sites.{IsSiteOf};
ghost use Rattle.ild_run_follow.specs.Refuses.{RefusesBroken, RefusesIn};
ghost use Rattle.ild_run_follow.specs.Tells.{TellsFrom, TellsIn};
ghost use Rattle.ild_run_follow.specs.declared.kind.Tell.TheVariants.{Presence};
ghost use Rattle.ild_schema.specs.Value.{Value, hamt as root_of};
ghost use Rattle.ild_schema.specs.declared.number.Slot.{Slot};
ghost use Rattle.ild_typed.specs.Fits.{Front};
ghost use Rattle.ild_view.specs.View.{IsView, slot_of, table_of};

use crate::adding::add_all;
use crate::entry::entry_view;
use ild_data::{KeyHash, Txt};
use ild_edges::Store;
use ild_hamt::descend;
use ild_inclusion::Proof;
use ild_node::{HamtFault, NodeView};
use ild_path_found::{end_of, parts_stand_in_data};
use ild_path_inward::halt_in;
use ild_path_room::levels;
use ild_view::View;
use std::alloc::Global;

/// Adds the nodes on the way of some segments, which lead from a view whose data stand in this block, and whose value may nest so many
/// levels. Whether they lead to a part is told.
#[cycle(way)]
pub(crate) fn follow<'b, K: Store, H: KeyHash>(
    alloc: Global,
    view: View<'b>,
    block: &[u8],
    segments: &[Txt],
    room: u32,
    proof: &mut Proof,
    keys: &H,
    store: &mut K,
) -> Result<bool, HamtFault>
    requires { room ≤ 96 }
    ensures alone { IsAlone result }
    ensures adds { (f : Value) → IsView view.entry f
        → IfOk result (λ _. AddsWay H.hash_of (table_of view.entry) room (slot_of view.entry, f) segments.now (K.moment store.old) proof.old proof.new (K.moment store.new)) }
    ensures tells { TellsFrom H.hash_of room view.entry segments.now Presence (K.moment store.old) (told_as result) (K.moment store.new) }
    ensures refused { (f : Value) (t : Data) → IsView view.entry f → Front (table_of view.entry) room (slot_of view.entry) f t
        → RefusesBroken H.hash_of (table_of view.entry) (id_of block.now) room (slot_of view.entry) t (K.moment store.old) (told_as result) (K.moment store.new) }
{
    // They do no work: their clauses say what acceptance says of the table, and that the parts of a front stand in its data.
    view.schema().recall();
    parts_stand_in_data();
    let halt = halt_in(&view, segments, room);
    let Some((key, behind)) = halt.left.split_first() else {
        return Ok(true);
    };
    match halt.view.hamt() {
        Some(root) => enter(
            alloc, halt.view, root, block, key, behind, halt.room, proof, keys, store,
        ),
        None => Ok(false),
    }
}

// The same of the segments from the key of a HAMT on, whose root node this is, and which may nest so many levels itself.
#[cycle(way)]
fn enter<'b, K: Store, H: KeyHash>(
    alloc: Global,
    hamt: View<'b>,
    root: NodeView<'b>,
    block: &[u8],
    key: &Txt,
    behind: &[Txt],
    room: u32,
    proof: &mut Proof,
    keys: &H,
    store: &mut K,
) -> Result<bool, HamtFault>
    requires low { room ≤ 96 }
    requires root { RootsAre hamt (Some root) }
    ensures alone { IsAlone result }
    ensures adds { (d : Data) → IsView hamt.entry (root_of d)
        → IfOk result (λ _. AddsWay H.hash_of (table_of hamt.entry) room (slot_of hamt.entry, root_of d) (key.now ∷ behind.now) (K.moment store.old) proof.old proof.new (K.moment store.new)) }
    ensures tells { TellsIn H.hash_of room hamt.entry (key.now ∷ behind.now) Presence (K.moment store.old) (told_as result) (K.moment store.new) }
    ensures refused { (slot : Slot) (z : Site) → IsSiteOf (table_of hamt.entry) slot z.room hamt.entry block.now z → room ≡ z.room + 5
        → RefusesIn H.hash_of (table_of hamt.entry) z (K.moment store.old) (told_as result) (K.moment store.new) }
{
    // It does no work, as above.
    hamt.schema().recall();
    let trail = match descend(alloc, root, key.as_str(), keys, store) {
        Ok(trail) => trail,
        Err(fault) => return Err(fault),
    };
    let nodes = trail.blocks();
    add_all(proof, nodes)?;
    let Some(node) = trail.found(root) else {
        return Ok(false);
    };
    let end = end_of(&trail, block);
    let less = room.saturating_sub(levels(&hamt));
    match entry_view(alloc, &hamt, node, end, less) {
        Ok(part) => follow(alloc, part, end, behind, less, proof, keys, store),
        Err(fault) => Err(fault),
    }
}
