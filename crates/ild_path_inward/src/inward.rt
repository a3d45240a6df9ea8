//! A path through the HAMTs on its way.
ghost use Rattle.std.specs.Prelude.{◌≡◌, ◌≤◌, ℕ, All, IfOk, List, [], Some, length};
ghost use Rattle.ild_data.specs.Data.{Data};
ghost use Rattle.ild_data.specs.Limits.{deepest};
ghost use Rattle.ild_data.specs.Spell.{id_of};
ghost use Rattle.ild_open_parts.specs.Reads.{OnlyReads};
ghost use Rattle.ild_path_enter.specs.Enters.{FailsOnly};
ghost use Rattle.ild_path_found.specs.Sites.{RefusesBroken, block_in};
ghost use Rattle.ild_path_hops.specs.Hops.{AreHops};
ghost use Rattle.ild_path_hops.specs.Links.{AreLinked};
ghost use Rattle.ild_path_inward.specs.Inwards.{CanGoOn, GoesInward, IsLinkedInward};
ghost use Rattle.ild_path_inward.specs.Levels.{CanGo, GoesIn, IsUnder, LevelBehind, PassesUnder, Shortens};
ghost use Rattle.ild_path_inward.specs.Refuses.{GoesDeeper, IsDataBehind, LeavesRoom, MeetsLevel, block_behind};
ghost use Rattle.ild_schema.specs.Value.{Value};
ghost use Rattle.ild_schema.specs.declared.number.Slot.{Slot as Place};
ghost use Rattle.ild_typed.specs.At.{InSlot};
ghost use Rattle.ild_typed.specs.Fits.{Front};
ghost use Rattle.ild_view.specs.View.{IsView, piece_of, slot_of, table_of};

use crate::level::{Level, Stand, go_in};
use ild_data::{KeyHash, Path, Txt};
use ild_edges::Store;
use ild_node::HamtFault;
use ild_path_found::{block_of, end_of};
use ild_path_hops::Hop;
use ild_schema::Accepted;
use ild_view::View;
use std::alloc::Global;

/// How far a path leads, from block to block.
#[derive(Drop)]
pub struct Inward<'s, 'p> {
    /// The HAMTs through which it passes, from the root inward.
    pub hops: Vec<Hop<'s>>,
    /// The segments from the root of the innermost block to the last part that it reaches.
    pub front: Path,
    /// The segments that are left; the first of them leads to no part.
    pub left: &'p [Txt],
    /// How many levels the part may nest.
    pub room: u32,
}

/// The block in which the value of the last entry stands, of hops that begin in this one.
pub fn block_under<'b>(block: &'b [u8], hops: &'b [Hop<'_>]) -> &'b [u8]
    ensures { result.now ≡ block_behind block.now hops.now }
{
    let mut at = block;
    for hop in hops {
        at = end_of(&hop.trail, at);
    }
    at
}

// What becomes of a path in the innermost block.
fn go_on<'s, 'p, K: Store, H: KeyHash>(
    alloc: Global,
    acc: &'s Accepted,
    root: &View<'_>,
    block: &[u8],
    hops: &[Hop<'s>],
    segments: &'p [Txt],
    room: u32,
    keys: &H,
    store: &mut K,
) -> Result<Level<'s, 'p>, HamtFault>
    requires { table_of root.now ≡ acc.now }
    ensures reads { OnlyReads (K.moment store.old) (K.moment store.new) }
    ensures failed { FailsOnly (K.moment store.old) result (K.moment store.new) }
    ensures under { All (IsUnder acc.now) hops.now → PassesUnder acc.now result }
    ensures behind { Shortens (length segments.now) result }
    ensures leads { LevelBehind root.now hops.now result }
    ensures room { (s : Place) (t : Data) (f : Value) → IsDataBehind acc.now root.now hops.now room s t f → LeavesRoom acc.now room (s, f) result }
    ensures refused { (s : Place) (t : Data) (f : Value) → IsDataBehind acc.now root.now hops.now room s t f
        → MeetsLevel H.hash_of acc.now (block_behind block.now hops.now) room s t (K.moment store.old) result (K.moment store.new) }
    ensures told { (was : List (List ℕ)) (q : InSlot) (t : Data) → (K.moment store.old).blocks ≡ Some was → CanGoOn H.hash_of acc.now was room q t root.now hops.now
        → GoesIn H.hash_of acc.now was room q segments.now (K.moment store.old) result (K.moment store.new) }
{
    let at = block_under(block, hops);
    match hops.last() {
        Some(hop) => {
            let entry = &hop.entry;
            go_in(
                alloc,
                entry.schema(),
                &entry.view(),
                at,
                segments,
                room,
                keys,
                store,
            )
        }
        None => go_in(alloc, acc, root, at, segments, room, keys, store),
    }
}

// The way on from the innermost block, behind these HAMTs.
fn go_from<'s, 'p, K: Store, H: KeyHash>(
    alloc: Global,
    acc: &'s Accepted,
    root: &View<'_>,
    block: &[u8],
    hops: Vec<Hop<'s>>,
    segments: &'p [Txt],
    room: u32,
    keys: &H,
    store: &mut K,
) -> Result<Inward<'s, 'p>, HamtFault>
    requires { table_of root.now ≡ acc.now }
    ensures reads { OnlyReads (K.moment store.old) (K.moment store.new) }
    ensures failed { FailsOnly (K.moment store.old) result (K.moment store.new) }
    ensures under { All (IsUnder acc.now) hops.entry.items → IfOk result (λ inward. All (IsUnder acc.now) inward.hops.items) }
    ensures leads { AreLinked root.now hops.entry.items → IfOk result (IsLinkedInward root.now) }
    ensures deeper { (s : Place) (t : Data) (f : Value) → IsDataBehind acc.now root.now hops.entry.items room s t f
        → IfOk result (GoesDeeper H.hash_of acc.now (K.moment store.old).blocks root.now block.now (id_of (block_behind block.now hops.entry.items)) room s t) }
    ensures refused { (s : Place) (t : Data) (f : Value) → IsDataBehind acc.now root.now hops.entry.items room s t f
        → RefusesBroken H.hash_of acc.now (id_of (block_behind block.now hops.entry.items)) room s t (K.moment store.old) result (K.moment store.new) }
    ensures told { (was : List (List ℕ)) (limit : ℕ) (p q : InSlot) (t : Data) → (K.moment store.old).blocks ≡ Some was
        → CanGo H.hash_of acc.now was limit p t root.now → AreHops H.hash_of acc.now was limit p hops.entry.items q room
        → GoesInward H.hash_of acc.now was limit p hops.entry.items q segments.now (K.moment store.old) result (K.moment store.new) }
{
    let mut hops = hops;
    match go_on(alloc, acc, root, block, &hops, segments, room, keys, store)? {
        Level::Stops(Stand { front, left, room }) => Ok(Inward {
            hops,
            front,
            left,
            room,
        }),
        Level::Passes(hop, behind, less) => {
            hops.push(hop)?;
            go_from(alloc, acc, root, block, hops, behind, less, keys, store)
        }
    }
}

/// How far some segments lead from a root view, whose value may nest so many levels: each HAMT on the way is entered at its key, by gets
/// alone, of no more nodes than there are on the keys' ways. No block is refused on a store that holds the value; on any
/// other, of a value that nests no deeper than it may, only one that is broken, of those that hang on the root's. A fault of the store comes only
/// where it failed. The HAMTs on the way stand one in the block of another's entry, whatever the store holds.
pub fn go_inward<'s, 'p, K: Store, H: KeyHash>(
    alloc: Global,
    acc: &'s Accepted,
    root: &View<'_>,
    segments: &'p [Txt],
    room: u32,
    keys: &H,
    store: &mut K,
) -> Result<Inward<'s, 'p>, HamtFault>
    requires { table_of root.now ≡ acc.now }
    ensures reads { OnlyReads (K.moment store.old) (K.moment store.new) }
    ensures failed { FailsOnly (K.moment store.old) result (K.moment store.new) }
    ensures under { IfOk result (λ inward. All (IsUnder acc.now) inward.hops.items) }
    ensures leads { IfOk result (IsLinkedInward root.now) }
    ensures deeper { (f : Value) (t : Data) → IsView root.now f → Front acc.now room (slot_of root.now) f t → room ≤ deepest
        → IfOk result (GoesDeeper H.hash_of acc.now (K.moment store.old).blocks root.now (block_in (piece_of root.now)) (id_of (block_in (piece_of root.now))) room (slot_of root.now) t) }
    ensures refused { (f : Value) (t : Data) → IsView root.now f → Front acc.now room (slot_of root.now) f t → room ≤ deepest
        → RefusesBroken H.hash_of acc.now (id_of (block_in (piece_of root.now))) room (slot_of root.now) t (K.moment store.old) result (K.moment store.new) }
    ensures told { (was : List (List ℕ)) (p : InSlot) (t : Data) → (K.moment store.old).blocks ≡ Some was → CanGo H.hash_of acc.now was room p t root.now
        → GoesInward H.hash_of acc.now was room p [] p segments.now (K.moment store.old) result (K.moment store.new) }
{
    go_from(
        alloc,
        acc,
        root,
        block_of(root),
        Vec::new(alloc),
        segments,
        room,
        keys,
        store,
    )
}
