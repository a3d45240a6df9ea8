//! The end of a path, at the holder of its last segment.
ghost use Rattle.std.specs.Prelude.{◌≡◌, ℕ, IfOk, List, None, Some, false};
ghost use Rattle.ild_data.specs.Data.{Data};
ghost use Rattle.ild_open_parts.specs.Reads.{OnlyReads};
ghost use Rattle.ild_open_parts.specs.Sites.{Site};
ghost use Rattle.ild_path_place.specs.inside.Endings.{CanEndAt, EndsIn, EndsKey, fault_at};
ghost use Rattle.ild_path_place.specs.Links.{front_at, is_whole};
ghost use Rattle.ild_path_place.specs.Refuses.{IsHolderSite, RefusesAt};
ghost use Rattle.ild_path_place.specs.Rooted.{FailsOnly};
ghost use Rattle.ild_path_place.specs.inside.Slots.{IsPartSlot};
ghost use Rattle.ild_schema.specs.Value.{Value, hamt};
ghost use Rattle.ild_typed.specs.At.{InSlot};
ghost use Rattle.ild_view.specs.View.{IsView, slot_of, table_of};

use crate::fault::{PathFault, of_hamt};
use crate::key::fits_key;
use crate::place::End;
use crate::refusal::{slot_at_key, slot_in_block};
use crate::verb::Verb;
use ild_data::{KeyHash, Path, Txt};
use ild_edges::Store;
use ild_path_enter::enter;
use ild_path_room::value_slot;
use ild_path_rules::{Refusal, key_fits};
use ild_schema::{Accepted, Slot};
use ild_view::View;
use std::alloc::Global;

/// How many levels a HAMT takes of the room of its values.
const HAMT_LEVELS: u32 = 5;

/// What was found at the end of a path.
#[derive(Drop)]
pub(crate) struct Found<'b> {
    pub(crate) end: End<'b>,
    pub(crate) slot: Slot,
    pub(crate) key_fits: bool,
    pub(crate) room: Option<u32>,
    pub(crate) hole: bool,
}

// Why there is no place at the segment with a number.
fn refused(refusal: Refusal, k: usize) -> PathFault
    ensures { result ≡ fault_at k refusal }
{
    match refusal {
        Refusal::Path => PathFault::Path { k },
        Refusal::Mismatch => PathFault::Mismatch,
    }
}

/// The end at a holder that is no HAMT, which leaves this room to the part, and may have a hole then.
pub(crate) fn end_in_block<'b>(
    alloc: Global,
    holder: &View<'_>,
    front: Path,
    last: &Txt,
    k: usize,
    left: Option<u32>,
    hole: bool,
    verb: Verb,
) -> Result<Found<'b>, PathFault>
    ensures part { IfOk result (λ found. IsPartSlot (table_of holder.now) found.slot) }
    ensures room { IfOk result (λ found. found.room ≡ left) }
    ensures hole { IfOk result (λ found. found.hole ≡ hole) }
    ensures inside { IfOk result (λ found. is_whole found.end ≡ false) }
    ensures front { IfOk result (λ found. front_at found.end ≡ None) }
    ensures ends { (f : Value) → IsView holder.now f → EndsIn (table_of holder.now) (slot_of holder.now, f) front last.now k verb result }
{
    let slot = match slot_in_block(holder, last.as_str(), verb) {
        Ok(slot) => slot,
        Err(refusal) => return Err(refused(refusal, k)),
    };
    let key_fits = key_fits(alloc, holder, last.as_str())?;
    let mut path = front;
    path.push(last.copy()?)?;
    Ok(Found {
        end: End::InBlock(path),
        slot,
        key_fits,
        room: left,
        hole,
    })
}

/// The end at a key of a HAMT, whose root stands in this block. It leaves this room to the part, and may have a hole then.
pub(crate) fn end_at_key<'b, K: Store, H: KeyHash>(
    alloc: Global,
    acc: &'b Accepted,
    holder: &View<'_>,
    block: &[u8],
    front: Path,
    last: &Txt,
    k: usize,
    room: u32,
    left: Option<u32>,
    hole: bool,
    verb: Verb,
    keys: &H,
    store: &mut K,
) -> Result<Found<'b>, PathFault>
    requires table { table_of holder.now ≡ acc.now }
    requires hamt { ∥ ((t : Data) × IsView holder.now (hamt t)) ∥₁ }
    ensures reads { OnlyReads (K.moment store.old) (K.moment store.new) }
    ensures failed { FailsOnly (K.moment store.old) result (K.moment store.new) }
    ensures part { IfOk result (λ found. IsPartSlot acc.now found.slot) }
    ensures room { IfOk result (λ found. found.room ≡ left) }
    ensures hole { IfOk result (λ found. found.hole ≡ hole) }
    ensures inside { IfOk result (λ found. is_whole found.end ≡ false) }
    ensures front { IfOk result (λ found. front_at found.end ≡ Some front) }
    ensures refused { (z : Site) → IsHolderSite acc.now room holder.now block.now z → RefusesAt H.hash_of acc.now z (K.moment store.old) result (K.moment store.new) }
    ensures told { (was : List (List ℕ)) (limit : ℕ) (q : InSlot) → (K.moment store.old).blocks ≡ Some was → (x : CanEndAt H.hash_of acc.now was limit q front room holder.now)
        → EndsKey H.hash_of acc.now was limit q front room holder.now x last.now k verb (K.moment store.old) result (K.moment store.new) }
{
    let Some(slot) = value_slot(acc, holder) else {
        unreachable!();
    };
    let less = room.saturating_sub(HAMT_LEVELS);
    let key = last.as_str();
    let entered = match enter(alloc, acc, slot, holder, block, key, less, keys, store) {
        Ok(entered) => entered,
        Err(fault) => return Err(of_hamt(&fault)),
    };
    let there = entered.entry.is_some();
    let slot = match slot_at_key(slot, there, verb) {
        Ok(slot) => slot,
        Err(refusal) => return Err(refused(refusal, k)),
    };
    let key_fits = fits_key(alloc, acc, holder, there, key)?;
    Ok(Found {
        end: End::AtKey(front, entered.trail, entered.entry),
        slot,
        key_fits,
        room: left,
        hole,
    })
}
