//! What a line asks of a store.
ghost use Rattle.std.specs.Prelude.{◌≡◌, None, Some};
ghost use Rattle.ild_data.specs.Spell.{id_of};
ghost use Rattle.ild_run_answers.specs.Asks.{Asks};
ghost use Rattle.ild_run_edit.specs.Edits.{edit_of};
ghost use Rattle.ild_run_reads.specs.Replies.{asked as told_as};
ghost use Rattle.ild_run_standing.specs.Answers.{AnswersAs};
ghost use Rattle.ild_script_meaning.specs.Ask.{asked_by, to_edit, to_tell};

use ild_data::{Path, Sha256Keys};
use ild_edges::Store;
use ild_open::BlockAt;
use ild_open_held::standing_are_held;
use ild_run_edit::{Verb, edit};
use ild_run_follow::Tell;
use ild_run_reads::{read, reads_are_replies};
use ild_run_standing::held_are_standing;
use ild_script::{Line, Reply, Word};
use ild_typed::values_are_trees;
use ild_view_doc::Doc;
use std::alloc::Global;

/// What is told of the part at a path.
fn tell<K: Store>(alloc: Global, doc: &Doc<'_>, path: &Path, what: Tell, store: &mut K) -> Reply
    ensures { AnswersAs id_of doc.now doc.now (to_tell (told_as what) path.now) (K.moment store.old) (Some result) (K.moment store.new) }
{
    values_are_trees();
    standing_are_held();
    held_are_standing();
    reads_are_replies();
    doc.schema().recall();
    let view = doc.view();
    let at = BlockAt::named(doc.block(), doc.root());
    read(alloc, &view, at, path, what, &Sha256Keys, store)
}

/// An edit, and the new root.
fn change<K: Store>(
    alloc: Global,
    doc: &mut Doc<'_>,
    verb: Verb,
    path: &Path,
    json: &[u8],
    store: &mut K,
) -> Reply
    ensures { AnswersAs id_of doc.old doc.new (to_edit (edit_of verb path.now json.now)) (K.moment store.old) (Some result) (K.moment store.new) }
{
    match edit(alloc, doc, verb, path, json, &Sha256Keys, store) {
        Ok(()) => Reply::Root(doc.root()),
        Err(refusal) => Reply::No(refusal),
    }
}

/// Answers a line that reads or edits the value of a document; any other is the session's own. The reply to an edit is the new root.
pub fn ask<K: Store>(
    alloc: Global,
    doc: &mut Doc<'_>,
    line: &Line,
    json: &[u8],
    store: &mut K,
) -> Option<Reply>
    ensures unasked { result ≡ None → store.new ≡ store.old }
    ensures asks { Asks doc.old doc.new (asked_by line.now.verb line.now.path json.now) (K.moment store.old) result (K.moment store.new) }
{
    match line.verb {
        Word::Get => Some(tell(alloc, doc, &line.path, Tell::Shown, store)),
        Word::Rep => Some(tell(alloc, doc, &line.path, Tell::Representation, store)),
        Word::Has => Some(tell(alloc, doc, &line.path, Tell::Presence, store)),
        Word::Len => Some(tell(alloc, doc, &line.path, Tell::Count, store)),
        Word::Walk => Some(tell(alloc, doc, &line.path, Tell::Parts, store)),
        Word::Set => Some(change(alloc, doc, Verb::Set, &line.path, json, store)),
        Word::Ins => Some(change(alloc, doc, Verb::Ins, &line.path, json, store)),
        Word::Del => Some(change(alloc, doc, Verb::Del, &line.path, json, store)),
        Word::Root | Word::Begin | Word::Commit | Word::Abort => None,
    }
}
