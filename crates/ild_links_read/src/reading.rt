//! A read along a path across typed links.
ghost use Rattle.std.specs.Prelude.{◌<◌, Bool, length};
ghost use Rattle.ild_data.specs.Spell.{id_of};
ghost use Rattle.ild_links_lines.specs.Walks.{Crosses};
ghost use Rattle.ild_links_read.specs.Reads.{Tells, TellsIn};
ghost use Rattle.ild_run_links.specs.Moments.{HoldsBlock, HoldsValue};
ghost use Rattle.ild_run_reads.specs.Replies.{asked as told_as};
ghost use Rattle.ild_script_meaning.specs.Ask.{to_tell};

use ild_data::{Path, Sha256Keys};
use ild_edges::Store;
use ild_links::Hop;
use ild_links_walk::{crossed, open_last, walk};
use ild_open::BlockAt;
use ild_open_held::standing_are_held;
use ild_run_follow::Tell;
use ild_run_reads::read;
use ild_run_standing::held_are_standing;
use ild_schema::Accepted;
use ild_script::Reply;
use ild_typed::values_are_trees;
use ild_view_doc::Doc;
use std::alloc::Global;

// What is told of the part at a path in the value of a document: by gets alone.
fn tell<K: Store>(alloc: Global, doc: &Doc<'_>, path: &Path, what: Tell, store: &mut K) -> Reply
    ensures { Tells id_of doc.now path.now (told_as what) (K.moment store.old) result (K.moment store.new) }
{
    // They do no work: their clauses say that the value at which the document stands is held at its view.
    values_are_trees();
    standing_are_held();
    held_are_standing();
    doc.schema().recall();
    let view = doc.view();
    let at = BlockAt::named(doc.block(), doc.root());
    read(alloc, &view, at, path, what, &Sha256Keys, store)
}

// What is told of the part at the rest of a path in the tree of a hop.
fn tell_in<K: Store>(
    alloc: Global,
    acc: &Accepted,
    hop: &Hop,
    path: &Path,
    what: Tell,
    store: &mut K,
) -> Reply
    requires { hop.now.ty.0 < length acc.now }
    ensures { TellsIn id_of acc.now hop.now path.now (told_as what) (K.moment store.old) result (K.moment store.new) }
{
    match open_last(alloc, acc, hop, path, store) {
        Ok((last, rest)) => tell(alloc, &last, &rest, what, store),
        Err(refusal) => Reply::No(refusal),
    }
}

/// What is told of the part at a path that crosses typed links, from a document on; or why the path isn't followed. Where there is no answer,
/// the path crosses none.
pub fn tell_across<K: Store>(
    alloc: Global,
    doc: &Doc<'_>,
    what: Tell,
    path: &Path,
    store: &mut K,
) -> Option<Reply>
    requires held { HoldsBlock doc.now (K.moment store.old) }
    requires stands { HoldsValue id_of doc.now (K.moment store.old) }
    ensures { (inside : Bool) → Crosses id_of inside doc.now doc.now (to_tell (told_as what) path.now) path.now (K.moment store.old) result (K.moment store.new) }
{
    let hops = match walk(alloc, doc, path, store) {
        Ok(hops) => hops,
        Err(refusal) => return Some(Reply::No(refusal)),
    };
    match crossed(&hops) {
        Some(hop) => Some(tell_in(alloc, doc.schema(), hop, path, what, store)),
        None => None,
    }
}
