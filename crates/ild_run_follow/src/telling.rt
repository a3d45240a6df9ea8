//! What is told of the part at a view.
ghost use Rattle.std.specs.Prelude.{◌≡◌, ◌<◌, ◌≤◌, IfOk, length, true};
ghost use Rattle.ild_data.specs.Data.{Data};
ghost use Rattle.ild_data.specs.Seen.{data_of};
ghost use Rattle.ild_data.specs.Spell.{id_of};
ghost use Rattle.ild_open.specs.Blocks.{bytes_in};
ghost use Rattle.ild_open.specs.Loaded.{IsShallow, IsShown};
ghost use Rattle.ild_run_follow.specs.Refuses.{RefusesBroken};
ghost use Rattle.ild_run_follow.specs.Tells.{LoadsPart, TellsHere, ToldBy};
ghost use Rattle.ild_run_follow.specs.Told.{is_loaded};
ghost use Rattle.ild_view.specs.View.{slot_of, table_of};

use crate::fault::{ReadFault, of_open};
use crate::kind::Tell;
use ild_data::{KeyHash, Tree};
use ild_edges::Store;
use ild_open::{BlockAt, load};
use ild_schema::{Accepted, Slot, Val};
use ild_value_parts::{count, parts};
use ild_value_shown::shown;
use ild_view::View;
use std::alloc::{AllocError, Global};

// The value at a view, whose data stand in this block, and which may nest so many levels.
fn loaded<K: Store, H: KeyHash>(
    alloc: Global,
    view: &View<'_>,
    at: BlockAt<'_>,
    room: u32,
    keys: &H,
    store: &mut K,
) -> Result<Val, ReadFault>
    requires low { room ≤ 96 }
    requires shallow { ∥ IsShallow room view.now ∥₁ }
    ensures loads { LoadsPart H.hash_of room view.now (K.moment store.old) result (K.moment store.new) }
    ensures refused { (t : Data) → IsShown room view.now t
        → RefusesBroken H.hash_of (table_of view.now) (id_of (bytes_in at.entry)) room (slot_of view.now) t (K.moment store.old) result (K.moment store.new) }
{
    view.schema().recall();
    match load(alloc, view, at, room, keys, store) {
        Ok(val) => Ok(val),
        Err(fault) => Err(of_open(&fault)),
    }
}

// What is told of a value that was loaded.
fn told_by(
    alloc: Global,
    acc: &Accepted,
    slot: Slot,
    val: &Val,
    tell: Tell,
) -> Result<Option<Tree>, AllocError>
    requires { slot.ty.0 < length acc.now }
    ensures { IfOk result (ToldBy acc.now slot val.now tell) }
{
    match tell {
        Tell::Shown => {
            let tree = shown(alloc, acc, slot, val)?;
            Ok(Some(tree))
        }
        Tell::Count => Ok(count(acc, slot, val)),
        Tell::Parts => parts(alloc, acc, slot, val),
        Tell::Representation => Ok(None),
        Tell::Presence => Ok(None),
    }
}

// What is told of the part at a view once it is loaded.
fn tell_loaded<K: Store, H: KeyHash>(
    alloc: Global,
    view: &View<'_>,
    at: BlockAt<'_>,
    room: u32,
    tell: Tell,
    keys: &H,
    store: &mut K,
) -> Result<Tree, ReadFault>
    requires loads { is_loaded tell ≡ true }
    requires low { room ≤ 96 }
    requires shallow { ∥ IsShallow room view.now ∥₁ }
    ensures tells { TellsHere H.hash_of room view.now tell (K.moment store.old) result (K.moment store.new) }
    ensures refused { (t : Data) → IsShown room view.now t
        → RefusesBroken H.hash_of (table_of view.now) (id_of (bytes_in at.entry)) room (slot_of view.now) t (K.moment store.old) result (K.moment store.new) }
{
    let val = loaded(alloc, view, at, room, keys, store)?;
    match told_by(alloc, view.schema(), view.slot(), &val, tell)? {
        Some(tree) => Ok(tree),
        None => Err(ReadFault::Path),
    }
}

/// What is told of the part at a view, whose data stand in this block, and which may nest so many levels.
pub(crate) fn tell_here<K: Store, H: KeyHash>(
    alloc: Global,
    view: &View<'_>,
    at: BlockAt<'_>,
    room: u32,
    tell: Tell,
    keys: &H,
    store: &mut K,
) -> Result<Tree, ReadFault>
    requires low { room ≤ 96 }
    requires shallow { ∥ IsShallow room view.now ∥₁ }
    ensures tells { TellsHere H.hash_of room view.now tell (K.moment store.old) result (K.moment store.new) }
    ensures refused { (t : Data) → IsShown room view.now t
        → RefusesBroken H.hash_of (table_of view.now) (id_of (bytes_in at.entry)) room (slot_of view.now) t (K.moment store.old) result (K.moment store.new) }
{
    view.schema().recall();
    match tell {
        Tell::Presence => Ok(Tree::Bool(true)),
        Tell::Representation => Ok(view.rep(alloc)?),
        Tell::Shown => tell_loaded(alloc, view, at, room, Tell::Shown, keys, store),
        Tell::Count => tell_loaded(alloc, view, at, room, Tell::Count, keys, store),
        Tell::Parts => tell_loaded(alloc, view, at, room, Tell::Parts, keys, store),
    }
}
