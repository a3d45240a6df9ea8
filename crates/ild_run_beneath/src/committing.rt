//! The commit of a batch.
ghost use Rattle.std.specs.Prelude.{◌≡◌};
ghost use Rattle.ild_data.specs.Spell.{id_of};
ghost use Rattle.ild_run_commit.specs.Commits.{Commits};

use crate::trees::trees_stand;
use crate::types::ByTypes;
use ild_dirty::{FlushFault, OwnBlocks};
use ild_edges::Store;
use ild_run_commit::commit_along;
use ild_view_doc::Doc;

/// Puts those of the batch's own blocks that belong to the value of the document, each once and behind its children.
pub fn commit<K: Store>(doc: &Doc<'_>, own: &mut OwnBlocks, store: &mut K) -> Result<(), FlushFault>
    ensures commits { Commits id_of doc.now own.old (K.moment store.old) result (K.moment store.new) }
    ensures own { own.new ≡ own.old }
{
    // These two do no work: their clauses say that the places of a value are told by blocks, and what acceptance says of the table.
    trees_stand();
    doc.schema().recall();
    commit_along(doc, 0, &ByTypes::of(doc.schema(), doc.ty()), own, store)
}
