//! A part comes to its place.
ghost use Rattle.std.specs.Prelude.{◌≡◌, ◌<◌, Err, IfOk, length, true};
ghost use Rattle.ild_path_place.specs.Comes.{comes};
ghost use Rattle.ild_path_place.specs.Parts.{verb_in};
ghost use Rattle.ild_path_place.specs.Tells.{table_at};
ghost use Rattle.ild_run_edit.specs.inside.Moves.{ComesTo, PartAnswer};
ghost use Rattle.ild_run_edit.specs.Naming.{NamesClash};
ghost use Rattle.ild_run_edit.specs.inside.Swaps.{SwapsTo};
ghost use Rattle.ild_schema.specs.ValueSeen.{value_of};
ghost use Rattle.ild_script.specs.declared.reply.No.TheVariants as refusal;
ghost use Rattle.ild_typed.specs.Typed.{Typed};

use crate::part::part_refusal;
use crate::putting::put_part;
use ild_data::{BlockId, KeyHash, NamedBlock};
use ild_edges::Store;
use ild_json::{JsonErr, read};
use ild_path_place::Place;
use ild_schema::{Accepted, Slot, Val};
use ild_script::No;
use ild_value::{ShownErr, from_shown};
use std::alloc::Global;

// The part that a json text means in a slot.
fn part_of(alloc: Global, acc: &Accepted, slot: Slot, json: &[u8]) -> Result<Val, No>
    requires { slot.ty.0 < length acc.now }
    ensures typed { IfOk result (λ v. Typed acc.now slot (value_of v)) }
    ensures answer { PartAnswer acc.now slot json.now result }
{
    acc.recall();
    let tree = match read(alloc, json) {
        Ok(tree) => tree,
        Err(JsonErr::Memory) => return Err(No::Memory),
        Err(_) => return Err(No::Json),
    };
    match from_shown(alloc, acc, slot, tree) {
        Ok(val) => Ok(val),
        Err(ShownErr::Mismatch { .. }) => Err(No::Mismatch),
        Err(ShownErr::Memory) => Err(No::Memory),
    }
}

/// The new root block, where the part that a json text means comes to a place; or the first of json, mismatch, hole, delimiter, depth,
/// exhausted and size. Before exhausted nothing is put. The id of a clash is noted.
pub(crate) fn bring<K: Store, H: KeyHash>(
    alloc: Global,
    place: Place<'_>,
    acc: &Accepted,
    json: &[u8],
    keys: &H,
    store: &mut K,
    clash: &mut Option<BlockId>,
) -> Result<NamedBlock, No>
    requires table { acc.now ≡ table_at place }
    requires brings { comes (verb_in place) ≡ true }
    ensures swaps { SwapsTo place.entry result }
    ensures comes { ComesTo H.hash_of place.entry json.now (K.moment store.old) result (K.moment store.new) }
    ensures named { result ≡ Err refusal.Clash → NamesClash clash.new (K.moment store.new) }
{
    acc.recall();
    let part = match part_of(alloc, acc, place.slot(), json) {
        Ok(part) => part,
        Err(refusal) => return Err(refusal),
    };
    match part_refusal(alloc, &place, acc, &part) {
        Ok(None) => put_part(alloc, place, acc, &part, json, keys, store, clash),
        Ok(Some(refusal)) => Err(refusal),
        Err(_) => Err(No::Memory),
    }
}
