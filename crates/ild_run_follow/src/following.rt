//! A path followed from block to block.
ghost use Rattle.std.specs.Prelude.{◌≡◌, ◌+◌, ◌<◌, ◌≤◌, drop, length};
ghost use Rattle.ild_data.specs.Data.{Data};
ghost use Rattle.ild_data.specs.Limits.{deepest};
ghost use Rattle.ild_data.specs.Spell.{id_of};
ghost use Rattle.ild_open.specs.Blocks.{bytes_in};
ghost use Rattle.ild_open.specs.Loaded.{IsShallow};
ghost use Rattle.ild_open_parts.specs.Sites.{Site};
ghost use Rattle.ild_path_found.specs.Sites.{IsSiteOf};
ghost use Rattle.ild_run_follow.specs.Refuses.{RefusesBroken, RefusesIn};
ghost use Rattle.ild_run_follow.specs.Tells.{TellsFrom, TellsIn};
ghost use Rattle.ild_schema.specs.Value.{Value, hamt as root_of};
ghost use Rattle.ild_schema.specs.declared.number.Slot.{Slot};
ghost use Rattle.ild_typed.specs.Fits.{Front};
ghost use Rattle.ild_view.specs.View.{IsView, slot_of, table_of};

use crate::absent::absent;
use crate::ending::end_at;
use crate::entering::{entry_view, trail_of};
use crate::fault::ReadFault;
use crate::kind::Tell;
use crate::reaching::reach;
use crate::telling::tell_here;
use ild_data::{KeyHash, Path, Tree};
use ild_edges::Store;
use ild_open::BlockAt;
use ild_path_found::parts_stand_in_data;
use ild_path_room::levels;
use ild_view::{Step, View};
use std::alloc::Global;

/// How many levels a value may nest.
const ROOM: u32 = 96;

// What is told of the part to which the segments from one on lead, of a view whose data stand in this block, and whose value may nest so
// many levels.
#[cycle(follow)]
fn tell_from<'b, K: Store, H: KeyHash>(
    alloc: Global,
    view: View<'b>,
    at: BlockAt<'_>,
    room: u32,
    path: &Path,
    from: usize,
    tell: Tell,
    keys: &H,
    store: &mut K,
) -> Result<Tree, ReadFault>
    requires low { room ≤ 96 }
    requires shallow { ∥ IsShallow room view ∥₁ }
    ensures tells { TellsFrom H.hash_of room view.entry (drop from path.now) tell (K.moment store.old) result (K.moment store.new) }
    ensures refused { (f : Value) (t : Data) → IsView view.entry f → Front (table_of view.entry) room (slot_of view.entry) f t
        → RefusesBroken H.hash_of (table_of view.entry) (id_of (bytes_in at.entry)) room (slot_of view.entry) t (K.moment store.old) result (K.moment store.new) }
{
    // They do no work: their clauses say what acceptance says of the table, and that the parts of a front stand in its data.
    view.schema().recall();
    parts_stand_in_data();
    let (step, left) = reach(&view, path, from, room);
    match step {
        Ok(Step::Here(part)) => tell_here(alloc, &part, at, left, tell, keys, store),
        Ok(Step::Enter(hamt, k)) => tell_in(alloc, hamt, at, left, path, k, tell, keys, store),
        Err(_) => absent(tell),
    }
}

// The same of the segments from the key of a HAMT on, whose root the view has, and which may nest so many levels itself.
#[cycle(follow)]
fn tell_in<'b, K: Store, H: KeyHash>(
    alloc: Global,
    hamt: View<'b>,
    at: BlockAt<'_>,
    room: u32,
    path: &Path,
    k: usize,
    tell: Tell,
    keys: &H,
    store: &mut K,
) -> Result<Tree, ReadFault>
    requires low { room ≤ 96 }
    requires root { ∥ ((t : Data) × IsView hamt (root_of t)) ∥₁ }
    requires within { k < length path.now }
    ensures tells { TellsIn H.hash_of room hamt.entry (drop k path.now) tell (K.moment store.old) result (K.moment store.new) }
    ensures refused { (slot : Slot) (z : Site) → IsSiteOf (table_of hamt.entry) slot z.room hamt.entry (bytes_in at.entry) z → room ≡ z.room + 5
        → RefusesIn H.hash_of (table_of hamt.entry) z (K.moment store.old) result (K.moment store.new) }
{
    // They do no work, as above: the count says that a number behind a segment's is one.
    hamt.schema().recall();
    let _count = path.len();
    let Some(root) = hamt.hamt() else {
        unreachable!();
    };
    let Some(key) = path.get(k) else {
        unreachable!();
    };
    let trail = trail_of(alloc, root, key.as_str(), keys, store)?;
    let Some(node) = trail.found(root) else {
        return absent(tell);
    };
    let end = end_at(&trail, at);
    let less = room.saturating_sub(levels(&hamt));
    match entry_view(alloc, &hamt, node, end, less) {
        Ok(part) => tell_from(alloc, part, end, less, path, k + 1, tell, keys, store),
        Err(fault) => Err(fault),
    }
}

/// What is told of the part of a view to which a path leads, through the HAMTs on it. The view's data stand in the block that is handed
/// in. `Path` comes where the path leads nowhere, or to what has no such parts; whether a part is there is told of each path. All by gets
/// alone: those of the nodes on the keys' ways, and where a part is shown, counted or listed those of its own nodes. No block is refused
/// on a store that holds the value; on any other, of a value that nests no deeper than it may, only one that is broken, of those that hang on
/// the view's data.
pub fn tell<K: Store, H: KeyHash>(
    alloc: Global,
    view: &View<'_>,
    at: BlockAt<'_>,
    path: &Path,
    tell: Tell,
    keys: &H,
    store: &mut K,
) -> Result<Tree, ReadFault>
    requires shallow { ∥ IsShallow 96 view.now ∥₁ }
    ensures tells { TellsFrom H.hash_of 96 view.now path.now tell (K.moment store.old) result (K.moment store.new) }
    ensures refused { (f : Value) (t : Data) → IsView view.now f → Front (table_of view.now) deepest (slot_of view.now) f t
        → RefusesBroken H.hash_of (table_of view.now) (id_of (bytes_in at.entry)) deepest (slot_of view.now) t (K.moment store.old) result (K.moment store.new) }
{
    tell_from(alloc, *view, at, ROOM, path, 0, tell, keys, store)
}
