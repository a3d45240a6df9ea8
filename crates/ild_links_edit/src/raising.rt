//! A new root of the tree in which a path ends, carried up to the first tree.
ghost use Rattle.std.specs.Prelude.{◌≡◌, length};
ghost use Rattle.ild_data.specs.Spell.{id_of};
ghost use Rattle.ild_links.specs.Follows.{AreTyped, BeginAt};
ghost use Rattle.ild_links.specs.Trees.{first_tree};
ghost use Rattle.ild_links_edit.specs.inside.Raises.{Raises, WalkIsKnown};
ghost use Rattle.ild_links_lines.specs.Walks.{trees_of};
ghost use Rattle.ild_links_walk.specs.inside.Refusals.{tree_refusal};
ghost use Rattle.ild_run_links.specs.Moments.{HoldsBlock, HoldsValue};
ghost use Rattle.ild_run_links.specs.Trees.{trees};
ghost use Rattle.ild_view_doc.specs.Docs.{table_in};

use ild_data::{BlockId, Path, Sha256Keys};
use ild_edges::Store;
use ild_links::{Hops, TreeErr, carry};
use ild_run_links::LinkedDocs;
use ild_script::No;
use ild_view_doc::Doc;
use std::alloc::Global;

// Why a tree isn't written, as a refusal.
fn tree_refusal(err: TreeErr) -> No
    ensures { result ≡ tree_refusal err }
{
    match err {
        TreeErr::Block(_) => No::Block,
        TreeErr::Store => No::Store,
        TreeErr::Clash(_, _, _) => No::Clash,
        TreeErr::Memory => No::Memory,
    }
}

/// Sets the link at the end of each hop but the last to the new root of the tree below it: the first tree's new root.
pub(crate) fn raise<K: Store>(
    alloc: Global,
    doc: &Doc<'_>,
    hops: &Hops,
    path: &Path,
    new: &BlockId,
    store: &mut K,
) -> Result<BlockId, No>
    requires held { HoldsBlock doc.now (K.moment store.old) }
    requires stands { HoldsValue id_of doc.now (K.moment store.old) }
    requires first { BeginAt (first_tree (trees (trees_of id_of doc.now))) hops.now }
    requires typed { AreTyped (length (table_in doc.now)) hops.now }
    requires walk { WalkIsKnown (trees_of id_of doc.now) path.now hops.now (K.moment store.old) }
    ensures { Raises (trees_of id_of doc.now) path.now hops.now new.now.0 (K.moment store.old) result (K.moment store.new) }
{
    let mut trees = LinkedDocs::over(alloc, doc, &Sha256Keys, store);
    match carry(hops, path, new, &mut trees) {
        Ok(root) => Ok(root),
        Err(err) => Err(tree_refusal(err)),
    }
}
