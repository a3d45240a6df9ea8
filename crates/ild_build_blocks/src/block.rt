//! The blocks of a value, from scratch.
ghost use Rattle.std.specs.Prelude.{◌≡◌, ◌<◌, false, length};
ghost use Rattle.ild_data.specs.Bytes.{AreBytes};
ghost use Rattle.ild_data.specs.Limits.{deepest};
ghost use Rattle.ild_schema.specs.ValueSeen.{value_of};
ghost use Rattle.ild_typed.specs.Fits.{Fits};
ghost use Rattle.ild_typed.specs.Judged.{breaks_delimiter, has_hole};
ghost use Rattle.ild_typed.specs.Typed.{Typed};
ghost use Rattle.ild_build_blocks.specs.Builds.{Builds};
ghost use Rattle.ild_build_blocks.specs.inside.Planned.{IsPutFault, StoppedBy};

use crate::fault::BuildFault;
use crate::plan::plan;
use ild_bulk::put_all;
use ild_data::{KeyHash, Octets};
use ild_edges::Store;
use ild_node_slots::HamtFault;
use ild_schema::{Accepted, Slot, Val};
use std::alloc::Global;

// The items of a slice of bytes are bytes; a caller that needs the fact makes this call, which does no work.
fn are_bytes(bytes: &[u8])
    ensures { AreBytes bytes.now }
{}

// Why a put stopped.
fn stopped_by(fault: HamtFault) -> BuildFault
    requires { IsPutFault fault }
    ensures { StoppedBy fault result }
{
    match fault {
        HamtFault::Store => BuildFault::Store,
        HamtFault::Clash { id, kept, new } => {
            are_bytes(kept.as_slice());
            are_bytes(new.as_slice());
            BuildFault::Clash { id, kept, new }
        }
        HamtFault::Memory => BuildFault::Memory,
        HamtFault::Exhausted => unreachable!(),
        HamtFault::Block { .. } => unreachable!(),
        HamtFault::Size => unreachable!(),
        HamtFault::NoKey => unreachable!(),
    }
}

/// The block of a typed value: the spelling of its one representation. The other blocks of the value, those of the nodes of its HAMTs,
/// are put, each behind its children; the answer isn't. The value has no hole, breaks no delimiter and nests at most 96 levels.
/// `Exhausted` comes exactly where a HAMT of the value has no trie, and else `Size` exactly where one of its blocks has more than
/// 4,194,304 bytes; then nothing is put. A `Clash` tells the bytes that are held and those of the block that was to be put.
pub fn build<K: Store, H: KeyHash>(
    alloc: Global,
    acc: &Accepted,
    slot: Slot,
    val: &Val,
    keys: &H,
    store: &mut K,
) -> Result<Octets, BuildFault>
    requires within { slot.ty.0 < length acc.now }
    requires typed { Typed acc.now slot (value_of val.now) }
    requires hole { has_hole acc.now slot (value_of val.now) ≡ false }
    requires delimiter { breaks_delimiter acc.now slot (value_of val.now) ≡ false }
    requires fits { Fits acc.now deepest slot (value_of val.now) }
    ensures { Builds H.hash_of acc.now slot (value_of val.now) (K.moment store.old) result (K.moment store.new) }
{
    let planned = match plan(alloc, acc, slot, val, keys) {
        Ok(planned) => planned,
        Err(fault) => return Err(fault),
    };
    match put_all(&planned.nodes, store) {
        Ok(()) => Ok(planned.block),
        Err(fault) => Err(stopped_by(fault)),
    }
}
