//! One edit, in the stated order of refusals.
ghost use Rattle.std.specs.Prelude.{◌≡◌, Err};
ghost use Rattle.ild_run_edit.specs.Edits.{Edits};
ghost use Rattle.ild_run_edit.specs.Naming.{NamesClash};
ghost use Rattle.ild_script.specs.declared.reply.No.TheVariants as refusal;

use crate::rooting::new_root;
use ild_data::{BlockId, KeyHash, Path};
use ild_edges::Store;
use ild_path_place::Verb;
use ild_run_standing::standing_are_at;
use ild_script::No;
use ild_view_doc::Doc;
use std::alloc::Global;

/// Does one edit of a document as [`edit`] does, and notes the id of a clash: under it other bytes are held than those of a block that
/// has it.
pub fn edit_naming<K: Store, H: KeyHash>(
    alloc: Global,
    doc: &mut Doc<'_>,
    verb: Verb,
    path: &Path,
    json: &[u8],
    keys: &H,
    store: &mut K,
    clash: &mut Option<BlockId>,
) -> Result<(), No>
    ensures edits { Edits H.hash_of doc.old doc.new verb path.now json.now (K.moment store.old) result (K.moment store.new) }
    ensures named { result ≡ Err refusal.Clash → NamesClash clash.new (K.moment store.new) }
{
    // They do no work: their clauses say where the document stands, and what is replied where it stays.
    standing_are_at();
    let block = match new_root(alloc, doc, verb, path, json, keys, store, clash) {
        Ok(block) => block,
        Err(refusal) => return Err(refusal),
    };
    doc.swap(block);
    Ok(())
}

/// Does one edit of a document: the part that a json text means is set or inserted at a path, or the part there is deleted, for which
/// the json is not read. The blocks of the changed value are put, its root block last, and the document takes it.
///
/// It is refused for the first of `Path`, `Json`, `Mismatch`, `Hole`, `Delimiter`, `Depth`, `Exhausted` and `Size` that holds; a refusal
/// leaves the document. `Block`, `Store`, `Clash` and `Memory` may come before, each for its cause; `Line`, `Reserved` and `Batch` never.
pub fn edit<K: Store, H: KeyHash>(
    alloc: Global,
    doc: &mut Doc<'_>,
    verb: Verb,
    path: &Path,
    json: &[u8],
    keys: &H,
    store: &mut K,
) -> Result<(), No>
    ensures { Edits H.hash_of doc.old doc.new verb path.now json.now (K.moment store.old) result (K.moment store.new) }
{
    edit_naming(alloc, doc, verb, path, json, keys, store, &mut None)
}
