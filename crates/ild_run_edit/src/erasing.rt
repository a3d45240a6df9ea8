//! A part goes from its place.
ghost use Rattle.std.specs.Prelude.{◌≡◌, Err};
ghost use Rattle.ild_path_place.specs.Parts.{verb_in};
ghost use Rattle.ild_path_place.specs.Tells.{table_at};
ghost use Rattle.ild_path_place.specs.declared.verb.Verb.TheVariants.{Del};
ghost use Rattle.ild_run_edit.specs.inside.Moves.{GoesFrom};
ghost use Rattle.ild_run_edit.specs.Naming.{NamesClash};
ghost use Rattle.ild_run_edit.specs.inside.Swaps.{SwapsTo};
ghost use Rattle.ild_script.specs.declared.reply.No.TheVariants as refusal;

use crate::faults::done_fault;
use ild_data::{BlockId, KeyHash, NamedBlock};
use ild_edges::Store;
use ild_path::erase;
use ild_path_around::breaks_around;
use ild_path_place::Place;
use ild_schema::Accepted;
use ild_script::No;
use std::alloc::Global;

/// The new root block, where the part at a place goes; or the first of hole, delimiter and size. The id of a clash is noted.
pub(crate) fn erase_part<K: Store, H: KeyHash>(
    alloc: Global,
    place: Place<'_>,
    acc: &Accepted,
    keys: &H,
    store: &mut K,
    clash: &mut Option<BlockId>,
) -> Result<NamedBlock, No>
    requires table { acc.now ≡ table_at place }
    requires done { verb_in place ≡ Del }
    ensures swaps { SwapsTo place.entry result }
    ensures goes { GoesFrom H.hash_of place.entry (K.moment store.old) result (K.moment store.new) }
    ensures named { result ≡ Err refusal.Clash → NamesClash clash.new (K.moment store.new) }
{
    acc.recall();
    if place.hole() {
        return Err(No::Hole);
    }
    match breaks_around(alloc, &place, None) {
        Ok(true) => return Err(No::Delimiter),
        Ok(false) => {}
        Err(_) => return Err(No::Memory),
    }
    match erase(alloc, place, keys, store) {
        Ok(block) => Ok(block),
        Err(fault) => Err(done_fault(&fault, clash)),
    }
}
