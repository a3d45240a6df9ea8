//! The new root block of an edit.
ghost use Rattle.std.specs.Prelude.{◌≡◌, Err, IfOk, IsUtf8};
ghost use Rattle.std.specs.List.{AllByRecursion};
ghost use Rattle.ild_run_edit.specs.Edits.{edit_of};
ghost use Rattle.ild_run_edit.specs.Naming.{NamesClash};
ghost use Rattle.ild_run_edit.specs.inside.Roots.{PlaceIsFound, MakesRoot, no_place};
ghost use Rattle.ild_script.specs.declared.reply.No.TheVariants as refusal;
ghost use Rattle.ild_view_doc.specs.Block.{HasRoot};
ghost use Rattle.ild_view_doc.specs.Docs.{table_in, type_in};

use crate::bringing::bring;
use crate::erasing::erase_part;
use ild_data::{BlockId, KeyHash, NamedBlock, Path};
use ild_edges::Store;
use ild_path_around::{faults_are_refusals, places_tell};
use ild_path_place::{PathFault, Place, Verb, locate};
use ild_run_standing::held_are_standing;
use ild_script::No;
use ild_view_doc::Doc;
use std::alloc::Global;

// It does no work: its clause says that each segment is a text.
fn are_texts(path: &Path)
    ensures { AllByRecursion IsUtf8 path.now }
{
    let segments = path.as_slice();
    let mut k = 0;
    while k < segments.len() {
        let _text = segments[k].as_str();
        k += 1;
    }
}

fn no_place(fault: PathFault) -> No
    ensures { result ≡ no_place fault }
{
    match fault {
        PathFault::Path { .. } => No::Path,
        PathFault::Mismatch => No::Mismatch,
        PathFault::Block { .. } => No::Block,
        PathFault::Store => No::Store,
        PathFault::Memory => No::Memory,
    }
}

// The place of an edit.
fn located<'b, K: Store, H: KeyHash>(
    alloc: Global,
    doc: &'b Doc<'_>,
    path: &Path,
    verb: Verb,
    keys: &H,
    store: &mut K,
) -> Result<Place<'b>, No>
    ensures { PlaceIsFound H.hash_of doc.now verb path.now (K.moment store.old) result (K.moment store.new) }
{
    // These two do no work: their clauses say what a place tells, and why there is none.
    places_tell();
    faults_are_refusals();
    match locate(alloc, doc, path, verb, keys, store) {
        Ok(place) => Ok(place),
        Err(fault) => Err(no_place(fault)),
    }
}

/// The new root block of a document of which a part is set, inserted or deleted; it is put last. The id of a clash is noted.
pub(crate) fn new_root<K: Store, H: KeyHash>(
    alloc: Global,
    doc: &Doc<'_>,
    verb: Verb,
    path: &Path,
    json: &[u8],
    keys: &H,
    store: &mut K,
    clash: &mut Option<BlockId>,
) -> Result<NamedBlock, No>
    ensures swaps { IfOk result (λ b. ∥ HasRoot (table_in doc.now) (type_in doc.now) b ∥₁) }
    ensures makes { MakesRoot H.hash_of doc.now (edit_of verb path.now json.now) (K.moment store.old) result (K.moment store.new) }
    ensures named { result ≡ Err refusal.Clash → NamesClash clash.new (K.moment store.new) }
{
    // These two do no work: their clauses say where the document stands, and that segments are texts.
    held_are_standing();
    are_texts(path);
    let place = match located(alloc, doc, path, verb, keys, store) {
        Ok(place) => place,
        Err(refusal) => return Err(refusal),
    };
    match verb {
        Verb::Set => bring(alloc, place, doc.schema(), json, keys, store, clash),
        Verb::Ins => bring(alloc, place, doc.schema(), json, keys, store, clash),
        Verb::Del => erase_part(alloc, place, doc.schema(), keys, store, clash),
    }
}
