//! A part is built, and put at its place.
ghost use Rattle.std.specs.Prelude.{◌≡◌, Err, IfOk, true};
ghost use Rattle.ild_path_place.specs.Comes.{comes};
ghost use Rattle.ild_path_place.specs.Parts.{verb_in};
ghost use Rattle.ild_path_place.specs.Tells.{slot_in, table_at};
ghost use Rattle.ild_run_edit.specs.inside.Judges.{IsFreePart};
ghost use Rattle.ild_run_edit.specs.inside.Moves.{BuildsPart, IsPartBlock, PutsPart};
ghost use Rattle.ild_run_edit.specs.Naming.{NamesClash};
ghost use Rattle.ild_run_edit.specs.inside.Swaps.{SwapsTo};
ghost use Rattle.ild_schema.specs.ValueSeen.{value_of};
ghost use Rattle.ild_script.specs.declared.reply.No.TheVariants as refusal;
ghost use Rattle.ild_typed.specs.Typed.{Typed};

use crate::faults::{built_fault, done_fault};
use ild_build_blocks::build;
use ild_cbor::known_root;
use ild_data::{BlockId, KeyHash, NamedBlock, Octets};
use ild_edges::Store;
use ild_path::replace;
use ild_path_around::places_tell_on;
use ild_path_place::Place;
use ild_schema::{Accepted, Val};
use ild_script::No;
use std::alloc::Global;

// The block of a part; the nodes of its HAMTs are put. The id of a clash is noted.
fn built_part<K: Store, H: KeyHash>(
    alloc: Global,
    place: &Place<'_>,
    acc: &Accepted,
    part: &Val,
    json: &[u8],
    keys: &H,
    store: &mut K,
    clash: &mut Option<BlockId>,
) -> Result<Octets, No>
    requires table { acc.now ≡ table_at place.now }
    requires typed { Typed acc.now (slot_in place.now) (value_of part.now) }
    requires free { IsFreePart place.now (value_of part.now) }
    ensures block { IfOk result (IsPartBlock place.now) }
    ensures builds { BuildsPart H.hash_of place.now (value_of part.now) json.now (K.moment store.old) result (K.moment store.new) }
    ensures named { result ≡ Err refusal.Clash → NamesClash clash.new (K.moment store.new) }
{
    // These two do no work: their clauses say what acceptance says of the types, and how little room a place leaves at most.
    acc.recall();
    place.room();
    match build(alloc, acc, place.slot(), part, keys, store) {
        Ok(block) => Ok(block),
        Err(fault) => Err(built_fault(&fault, clash)),
    }
}

/// The new root block, where a part comes to a place: the nodes of its HAMTs are put, and then the blocks on the way, the root block
/// last. The id of a clash is noted.
pub(crate) fn put_part<K: Store, H: KeyHash>(
    alloc: Global,
    place: Place<'_>,
    acc: &Accepted,
    part: &Val,
    json: &[u8],
    keys: &H,
    store: &mut K,
    clash: &mut Option<BlockId>,
) -> Result<NamedBlock, No>
    requires table { acc.now ≡ table_at place }
    requires typed { Typed acc.now (slot_in place) (value_of part.now) }
    requires free { IsFreePart place (value_of part.now) }
    requires brings { comes (verb_in place) ≡ true }
    ensures swaps { SwapsTo place.entry result }
    ensures puts { PutsPart H.hash_of place.entry (value_of part.now) json.now (K.moment store.old) result (K.moment store.new) }
    ensures named { result ≡ Err refusal.Clash → NamesClash clash.new (K.moment store.new) }
{
    // These two do no work: their clauses say what acceptance says of the types, and that a place stays one.
    acc.recall();
    places_tell_on();
    let block = match built_part(alloc, &place, acc, part, json, keys, store, clash) {
        Ok(block) => block,
        Err(refusal) => return Err(refusal),
    };
    let item = known_root(block.as_slice());
    match replace(alloc, place, &item, keys, store) {
        Ok(root) => Ok(root),
        Err(fault) => Err(done_fault(&fault, clash)),
    }
}
