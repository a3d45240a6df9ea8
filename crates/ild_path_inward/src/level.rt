//! One block on the way of a path.
ghost use Rattle.std.specs.Prelude.{◌≡◌, ◌+◌, ◌-◌, ◌≤◌, ℕ, List, Some, length};
ghost use Rattle.ild_data.specs.Data.{Data};
ghost use Rattle.ild_data.specs.Limits.{deepest};
ghost use Rattle.ild_open_parts.specs.Reads.{OnlyReads};
ghost use Rattle.ild_open_parts.specs.Sites.{Site};
ghost use Rattle.ild_path_enter.specs.Enters.{FailsOnly};
ghost use Rattle.ild_path_inward.specs.Refuses.{HaltsAtSite, LeavesRoom, MeetsHamt, MeetsLevel, RoomIs};
ghost use Rattle.ild_path_inward.specs.Levels.{CanEnterAt, CanGo, FrontIs, GoesIn, IsBehind, KeyIs, LevelLeads, PassesUnder, Shortens};
ghost use Rattle.ild_schema.specs.Value.{Value, hamt};
ghost use Rattle.ild_typed.specs.At.{InSlot};
ghost use Rattle.ild_typed.specs.Fits.{Front};
ghost use Rattle.ild_view.specs.Roots.{root_in};
ghost use Rattle.ild_view.specs.View.{IsView, slot_of, table_of};

use crate::copy::path_of;
use crate::halt::{Halt, halt_in};
use ild_data::{KeyHash, Path, Txt};
use ild_edges::Store;
use ild_node::HamtFault;
use ild_path_enter::{Entered, enter};
use ild_path_found::parts_stand_in_data;
use ild_path_hops::Hop;
use ild_path_room::value_slot;
use ild_schema::Accepted;
use ild_view::View;
use std::alloc::Global;

/// How many levels a value may nest.
const ROOM: u32 = 96;

/// How many levels a HAMT takes of the room of its values.
const HAMT_LEVELS: u32 = 5;

/// Where a path stops: the segments from the root of the block to the part, those that are left, and how many levels the part may nest.
#[derive(Drop)]
pub(crate) struct Stand<'p> {
    pub(crate) front: Path,
    pub(crate) left: &'p [Txt],
    pub(crate) room: u32,
}

/// What becomes of a path in a block.
#[derive(Drop)]
pub(crate) enum Level<'s, 'p> {
    /// It stops there.
    Stops(Stand<'p>),
    /// It passes through an entry of a HAMT: with the segments behind the key, and how many levels the value may nest.
    Passes(Hop<'s>, &'p [Txt], u32),
}

// The key and the segments behind it, where a path stops at a HAMT.
fn key_at<'p>(halt: &Halt<'_, 'p>) -> Option<(&'p Txt, &'p [Txt])>
    ensures key { (f : Value) → IsView halt.now.view f → KeyIs (root_in f) halt.now.left.now result }
    ensures behind { IsBehind (length halt.now.left.now) result }
{
    match halt.view.hamt() {
        Some(_) => halt.left.split_first(),
        None => None,
    }
}

// How many levels the values of a HAMT may nest that may nest so many itself.
fn below_hamt(room: u32) -> u32
    ensures less { room ≤ 96 → result ≡ room - 5 }
    ensures deep { result ≤ 92 }
{
    room.min(ROOM).saturating_sub(HAMT_LEVELS)
}

// The entry of a HAMT at a key, through which the path passes; where there is none, it stops.
fn enter_at<'s, 'p, K: Store, H: KeyHash>(
    alloc: Global,
    acc: &'s Accepted,
    halt: &Halt<'_, 'p>,
    block: &[u8],
    front: Path,
    key: &Txt,
    behind: &'p [Txt],
    keys: &H,
    store: &mut K,
) -> Result<Level<'s, 'p>, HamtFault>
    requires table { table_of halt.now.view ≡ acc.now }
    requires hamt { ∥ ((t : Data) × IsView halt.now.view (hamt t)) ∥₁ }
    ensures reads { (f : Value) → IsView halt.now.view f → OnlyReads (K.moment store.old) (K.moment store.new) }
    ensures failed { FailsOnly (K.moment store.old) result (K.moment store.new) }
    ensures under { PassesUnder acc.now result }
    ensures behind { Shortens (length behind.now + 1) result }
    ensures fronts { FrontIs front result }
    ensures room { RoomIs halt.now.room result }
    ensures refused { (z : Site) → HaltsAtSite acc.now halt.now block.now z → MeetsHamt H.hash_of acc.now block.now key.now z (K.moment store.old) result (K.moment store.new) }
    ensures told { (was : List (List ℕ)) (limit : ℕ) (p : InSlot) (path : List (List ℕ)) → (K.moment store.old).blocks ≡ Some was
        → CanEnterAt H.hash_of acc.now was limit p path front key.now behind.now halt.now
        → GoesIn H.hash_of acc.now was limit p path (K.moment store.old) result (K.moment store.new) }
{
    let Some(slot) = value_slot(acc, &halt.view) else {
        unreachable!();
    };
    let less = below_hamt(halt.room);
    let Entered { trail, entry } = enter(
        alloc,
        acc,
        slot,
        &halt.view,
        block,
        key.as_str(),
        less,
        keys,
        store,
    )?;
    match entry {
        Some(entry) => Ok(Level::Passes(
            Hop {
                front,
                trail,
                entry,
            },
            behind,
            less,
        )),
        None => Ok(Level::Stops(Stand {
            front,
            left: halt.left,
            room: halt.room,
        })),
    }
}

/// What becomes of a path in the data of a root view, which stand in this block, and whose value may nest so many levels.
pub(crate) fn go_in<'s, 'p, K: Store, H: KeyHash>(
    alloc: Global,
    acc: &'s Accepted,
    root: &View<'_>,
    block: &[u8],
    segments: &'p [Txt],
    room: u32,
    keys: &H,
    store: &mut K,
) -> Result<Level<'s, 'p>, HamtFault>
    requires { table_of root.now ≡ acc.now }
    ensures reads { OnlyReads (K.moment store.old) (K.moment store.new) }
    ensures failed { FailsOnly (K.moment store.old) result (K.moment store.new) }
    ensures under { PassesUnder acc.now result }
    ensures behind { Shortens (length segments.now) result }
    ensures leads { (f : Value) → IsView root.now f → LevelLeads (table_of root.now) (slot_of root.now, f) result }
    ensures room { (f : Value) → IsView root.now f → LeavesRoom acc.now room (slot_of root.now, f) result }
    ensures refused { (f : Value) (t : Data) → IsView root.now f → Front acc.now room (slot_of root.now) f t → room ≤ deepest
        → MeetsLevel H.hash_of acc.now block.now room (slot_of root.now) t (K.moment store.old) result (K.moment store.new) }
    ensures told { (was : List (List ℕ)) (p : InSlot) (t : Data) → (K.moment store.old).blocks ≡ Some was → CanGo H.hash_of acc.now was room p t root.now
        → GoesIn H.hash_of acc.now was room p segments.now (K.moment store.old) result (K.moment store.new) }
{
    // They do no work: their clauses say what acceptance says of the table, and that the parts of a front stand in its data.
    acc.recall();
    parts_stand_in_data();
    let halt = halt_in(root, segments, room);
    let front = path_of(alloc, &segments[..segments.len() - halt.left.len()])?;
    match key_at(&halt) {
        Some((key, behind)) => enter_at(alloc, acc, &halt, block, front, key, behind, keys, store),
        None => Ok(Level::Stops(Stand {
            front,
            left: halt.left,
            room: halt.room,
        })),
    }
}
