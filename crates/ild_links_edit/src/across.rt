//! An edit along a path that crosses typed links.
ghost use Rattle.ild_data.specs.Spell.{id_of};
ghost use Rattle.ild_links_lines.specs.Walks.{Crosses};
ghost use Rattle.ild_run_edit.specs.Edits.{edit_of};
ghost use Rattle.ild_run_links.specs.Moments.{HoldsBlock, HoldsValue};
ghost use Rattle.ild_script_meaning.specs.Ask.{to_edit};

use crate::changing::changed_doc;
use ild_data::Path;
use ild_edges::Store;
use ild_links_lines::walks_are_one;
use ild_links_walk::{crossed, walk};
use ild_run_edit::Verb;
use ild_run_standing::{held_are_standing, standing_are_at, still_replies};
use ild_script::{No, Reply};
use ild_view_doc::Doc;
use std::alloc::Global;

/// Does an edit along a path that crosses typed links: in the tree in which the path ends, whose new root comes into the link above it,
/// and so on up to the first tree, of which the document then is. The reply is the new root. `None` where the path crosses no link. Inside a
/// batch no edit crosses one.
pub fn edit_across<K: Store>(
    alloc: Global,
    doc: &mut Doc<'_>,
    inside: bool,
    verb: Verb,
    path: &Path,
    json: &[u8],
    store: &mut K,
) -> Option<Reply>
    requires held { HoldsBlock doc.old (K.moment store.old) }
    requires stands { HoldsValue id_of doc.old (K.moment store.old) }
    ensures { Crosses id_of inside doc.old doc.new (to_edit (edit_of verb path.now json.now)) path.now (K.moment store.old) result (K.moment store.new) }
{
    // They do no work: their clauses say where the document stands, what is replied where no block comes, and that a path has one walk.
    standing_are_at();
    held_are_standing();
    still_replies();
    walks_are_one();
    doc.schema().recall();
    let hops = match walk(alloc, doc, path, store) {
        Ok(hops) => hops,
        Err(refusal) => return Some(Reply::No(refusal)),
    };
    let Some(last) = crossed(&hops) else {
        return None;
    };
    if inside {
        return Some(Reply::No(No::Batch));
    }
    match changed_doc(alloc, doc, &hops, last, verb, path, json, store) {
        Ok(changed) => {
            *doc = changed;
            Some(Reply::Root(doc.root()))
        }
        Err(refusal) => Some(Reply::No(refusal)),
    }
}
