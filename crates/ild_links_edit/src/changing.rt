//! The first tree, with a part changed in the tree in which a path ends.
ghost use Rattle.std.specs.Prelude.{◌≡◌, Some, length};
ghost use Rattle.ild_data.specs.Spell.{id_of};
ghost use Rattle.ild_links.specs.Follows.{AreTyped, BeginAt};
ghost use Rattle.ild_links.specs.Trees.{first_tree};
ghost use Rattle.ild_links_edit.specs.inside.Changes.{Changes};
ghost use Rattle.ild_links_edit.specs.inside.Raises.{WalkIsKnown};
ghost use Rattle.ild_links_lines.specs.Walks.{trees_of};
ghost use Rattle.ild_links_walk.specs.Last.{crossed};
ghost use Rattle.ild_run_links.specs.Moments.{HoldsBlock, HoldsValue};
ghost use Rattle.ild_run_links.specs.Trees.{trees};
ghost use Rattle.ild_view_doc.specs.Docs.{table_in};

use crate::ending::edit_tree;
use crate::finding::find_root;
use crate::raising::raise;
use ild_data::Path;
use ild_edges::Store;
use ild_links::{Hop, Hops};
use ild_run_edit::Verb;
use ild_run_standing::{held_are_standing, standing_are_at};
use ild_script::No;
use ild_typed_places::places_are_blocks;
use ild_view_doc::Doc;
use std::alloc::Global;

/// Does an edit in the tree in which a path ends, and carries the new root up through the links: the document of the first tree's new
/// root.
pub(crate) fn changed_doc<'s, K: Store>(
    alloc: Global,
    doc: &Doc<'s>,
    hops: &Hops,
    last: &Hop,
    verb: Verb,
    path: &Path,
    json: &[u8],
    store: &mut K,
) -> Result<Doc<'s>, No>
    requires held { HoldsBlock doc.now (K.moment store.old) }
    requires stands { HoldsValue id_of doc.now (K.moment store.old) }
    requires first { BeginAt (first_tree (trees (trees_of id_of doc.now))) hops.now }
    requires last { crossed hops.now ≡ Some last.now }
    requires typed { AreTyped (length (table_in doc.now)) hops.now }
    requires walk { WalkIsKnown (trees_of id_of doc.now) path.now hops.now (K.moment store.old) }
    ensures { Changes doc.now verb path.now json.now hops.now (K.moment store.old) result (K.moment store.new) }
{
    // They do no work: their clauses say where the document stands, and that blocks with children are blocks of the value.
    standing_are_at();
    held_are_standing();
    places_are_blocks();
    let acc = doc.schema();
    acc.recall();
    let new = match edit_tree(alloc, acc, last, verb, path, json, store) {
        Ok(new) => new,
        Err(refusal) => return Err(refusal),
    };
    let root = match raise(alloc, doc, hops, path, &new, store) {
        Ok(root) => root,
        Err(refusal) => return Err(refusal),
    };
    match find_root(alloc, acc, doc.ty(), &root, store) {
        Ok(changed) => Ok(changed),
        Err(refusal) => Err(refusal),
    }
}
