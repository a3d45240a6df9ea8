//! The end of a path in the innermost block.
ghost use Rattle.std.specs.Option.{ForSome};
ghost use Rattle.std.specs.Prelude.{◌≡◌, ◌≤◌, All, IfOk, Some, false};
ghost use Rattle.ild_open_parts.specs.Reads.{OnlyReads};
ghost use Rattle.ild_path_inward.specs.Levels.{IsUnder};
ghost use Rattle.ild_path_hops.specs.Links.{PartBehind};
ghost use Rattle.ild_path_place.specs.Links.{EndBehind, EndFollows, is_whole};
ghost use Rattle.ild_path_place.specs.Rooted.{FailsOnly};
ghost use Rattle.ild_path_place.specs.inside.Slots.{IsPartSlot};
ghost use Rattle.ild_view.specs.View.{table_of};
ghost use Rattle.ild_path_place.specs.inside.Innermost.{FindsEnd, FindsEndBehind, RefusesAtEnd, RefusesBehind, TellsHole, TellsHoleBehind, TellsRoom, TellsRoomBehind};

use crate::ending::{Found, end_at_key, end_in_block};
use crate::fault::PathFault;
use crate::hole::leaves;
use crate::room::room_in;
use crate::verb::Verb;
use ild_data::{KeyHash, Path, Txt};
use ild_edges::Store;
use ild_path_found::{block_of, parts_stand_in_data};
use ild_path_hops::Hop;
use ild_path_inward::{block_under, halt_in};
use ild_schema::Accepted;
use ild_view::View;
use std::alloc::Global;

// The end of a path in the data of this root view, which stand in this block: the segments to the holder of its last segment, which has this number.
fn end_of<'b, K: Store, H: KeyHash>(
    alloc: Global,
    acc: &'b Accepted,
    inner: &View<'_>,
    block: &[u8],
    front: Path,
    last: &Txt,
    k: usize,
    room: u32,
    verb: Verb,
    keys: &H,
    store: &mut K,
) -> Result<Found<'b>, PathFault>
    requires { table_of inner.now ≡ acc.now }
    ensures reads { OnlyReads (K.moment store.old) (K.moment store.new) }
    ensures failed { FailsOnly (K.moment store.old) result (K.moment store.new) }
    ensures part { IfOk result (λ found. IsPartSlot acc.now found.slot) }
    ensures inside { IfOk result (λ found. is_whole found.end ≡ false) }
    ensures leads { IfOk result (λ found. EndFollows inner.now front found.end) }
    ensures deep { IfOk result (λ found. ForSome found.room (λ n. n ≤ 96)) }
    ensures room { TellsRoom H.hash_of acc.now inner.now front last.now room result }
    ensures hole { TellsHole H.hash_of acc.now inner.now front last.now room verb result }
    ensures refused { RefusesAtEnd H.hash_of acc.now inner.now block.now front room (K.moment store.old) result (K.moment store.new) }
    ensures told { FindsEnd H.hash_of acc.now inner.now front last.now k room verb (K.moment store.old) result (K.moment store.new) }
{
    // They do no work: their clauses say what acceptance says of the table, and that the parts of a front stand in its data.
    acc.recall();
    parts_stand_in_data();
    let holder = halt_in(inner, front.as_slice(), room).view;
    let left = room_in(alloc, acc, &holder, last.as_str(), room)?;
    let hole = leaves(&holder, last.as_str(), verb);
    match holder.hamt() {
        Some(_) => end_at_key(
            alloc, acc, &holder, block, front, last, k, room, left, hole, verb, keys, store,
        ),
        None => end_in_block(alloc, &holder, front, last, k, left, hole, verb),
    }
}

/// The end of a path behind these HAMTs.
pub(crate) fn end_behind<'b, K: Store, H: KeyHash>(
    alloc: Global,
    acc: &'b Accepted,
    root: &View<'_>,
    hops: &[Hop<'b>],
    front: Path,
    last: &Txt,
    k: usize,
    room: u32,
    verb: Verb,
    keys: &H,
    store: &mut K,
) -> Result<Found<'b>, PathFault>
    requires { table_of root.now ≡ acc.now }
    ensures reads { OnlyReads (K.moment store.old) (K.moment store.new) }
    ensures failed { FailsOnly (K.moment store.old) result (K.moment store.new) }
    ensures part { All (IsUnder acc.now) hops.now → IfOk result (λ found. IsPartSlot acc.now found.slot) }
    ensures inside { IfOk result (λ found. is_whole found.end ≡ false) }
    ensures leads { PartBehind root.now hops.now front → IfOk result (λ found. EndBehind root.now hops.now found.end) }
    ensures deep { IfOk result (λ found. ForSome found.room (λ n. n ≤ 96)) }
    ensures room { TellsRoomBehind H.hash_of acc.now root.now hops.now front last.now room result }
    ensures hole { TellsHoleBehind H.hash_of acc.now root.now hops.now front last.now room verb result }
    ensures refused { RefusesBehind H.hash_of acc.now root.now hops.now front room (K.moment store.old) result (K.moment store.new) }
    ensures told { FindsEndBehind H.hash_of acc.now root.now hops.now front last.now k room verb (K.moment store.old) result (K.moment store.new) }
{
    let block = block_under(block_of(root), hops);
    match hops.last() {
        Some(hop) => {
            let entry = &hop.entry;
            end_of(
                alloc,
                entry.schema(),
                &entry.view(),
                block,
                front,
                last,
                k,
                room,
                verb,
                keys,
                store,
            )
        }
        None => end_of(
            alloc, acc, root, block, front, last, k, room, verb, keys, store,
        ),
    }
}
