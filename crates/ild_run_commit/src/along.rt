//! The commit of a batch along the places of its value.
ghost use Rattle.std.specs.Prelude.{◌≡◌};
ghost use Rattle.ild_data.specs.Spell.{id_of};
ghost use Rattle.ild_run_commit.specs.Commits.{Commits};
ghost use Rattle.ild_run_commit.specs.Places.{HaveTrees};

use ild_dirty::{Batch, Beneath, FlushFault, OwnBlocks};
use ild_edges::Store;
use ild_script_batch::{carried_agree, flushes_commit};
use ild_view_doc::Doc;

/// Puts those of the batch's own blocks that are reached from the document's block, by what stands beneath blocks at places of these
/// kinds, each once and behind its children. It is the commit where that walk meets the places of each value of the document's type.
pub fn commit_along<K: Store, B: Beneath>(
    doc: &Doc<'_>,
    kind: u32,
    beneath: &B,
    own: &mut OwnBlocks,
    store: &mut K,
) -> Result<(), FlushFault>
    ensures commits { HaveTrees id_of doc.now kind (B.children beneath.now) → Commits id_of doc.now own.old (K.moment store.old) result (K.moment store.new) }
    ensures own { own.new ≡ own.old }
{
    // These two do no work: their clauses say what a flush along the places is.
    carried_agree();
    flushes_commit();
    let root = doc.root();
    let mut batch = Batch::new(own, store);
    batch.flush(&root, kind, beneath)
}
