//! What a line makes of a session.
ghost use Rattle.std.specs.Prelude.{◌≡◌, [], None, Some};
ghost use Rattle.ild_data.specs.Spell.{id_of};
ghost use Rattle.ild_script.specs.Line.{blank, reads};
ghost use Rattle.ild_script_meaning.specs.Ask.{asked, asked_by, to_abort, to_commit};
ghost use Rattle.ild_run_document.specs.Begins.{doc_of};
ghost use Rattle.ild_run_document.specs.Null.{null_text};
ghost use Rattle.ild_run_document.specs.inside.Refusals.{refusal_of};
ghost use Rattle.ild_run_document.specs.Turns.{AreAlike, Turns};

use crate::begun::{Begun, begin};
use crate::inside::ask_inside;
use ild_dirty::{FlushFault, OwnBlocks};
use ild_edges::Store;
use ild_run_answers::ask;
use ild_run_beneath::commit;
use ild_script::{Line, LineErr, No, Reply, Word, line_of};
use ild_script_batch::{batches_begin, batches_end, stages_stay};
use ild_view_doc::Doc;
use std::alloc::Global;

// Why a batch is not committed, as the line is refused.
fn refusal(fault: &FlushFault) -> No
    ensures { result ≡ refusal_of fault.now }
{
    match fault {
        FlushFault::Store => No::Store,
        FlushFault::Clash { .. } => No::Clash,
        FlushFault::Memory => No::Memory,
    }
}

// A line outside a batch.
fn answer_outside<'s, K: Store>(
    alloc: Global,
    doc: &mut Doc<'s>,
    line: &Line,
    json: &[u8],
    store: &mut K,
) -> (Reply, Option<Begun<'s>>)
    ensures { Turns id_of doc.old doc.new None (doc_of result.1) [] [] (asked_by line.now.verb line.now.path json.now) (K.moment store.old) (Some result.0) (K.moment store.new) }
{
    stages_stay();
    batches_begin();
    if let Some(reply) = ask(alloc, doc, line, json, store) {
        return (reply, None);
    }
    match line.verb {
        Word::Root => (Reply::Root(doc.root()), None),
        Word::Begin => match begin(alloc, doc) {
            Ok((told, begun)) => (Reply::Ok(told), Some(begun)),
            Err(_) => (Reply::No(No::Memory), None),
        },
        _ => (Reply::No(No::Batch), None),
    }
}

// The end of a batch whose value is kept: a refusal leaves it open.
fn keep<'s, K: Store>(
    doc: &Doc<'s>,
    begun: Begun<'s>,
    own: &mut OwnBlocks,
    store: &mut K,
) -> (Reply, Option<Begun<'s>>)
    requires { AreAlike doc.now (Some begun.doc) }
    ensures { Turns id_of doc.now doc.now (Some begun.entry.doc) (doc_of result.1) own.old own.new to_commit (K.moment store.old) (Some result.0) (K.moment store.new) }
{
    match commit(doc, own, store) {
        Ok(()) => {
            own.clear();
            (Reply::Root(doc.root()), None)
        }
        Err(fault) => (Reply::No(refusal(&fault)), Some(begun)),
    }
}

// The end of a batch that is dropped.
fn drop_batch<'s>(doc: &mut Doc<'s>, begun: Begun<'s>, own: &mut OwnBlocks) -> Reply
    requires { AreAlike doc.old (Some begun.doc) }
    ensures doc { doc.new ≡ begun.entry.doc }
    ensures reply { result ≡ Reply.Ok null_text }
{
    own.clear();
    *doc = begun.doc;
    Reply::Ok(begun.told)
}

// A line inside a batch.
fn answer_inside<'s, K: Store>(
    alloc: Global,
    doc: &mut Doc<'s>,
    begun: Begun<'s>,
    own: &mut OwnBlocks,
    line: &Line,
    json: &[u8],
    store: &mut K,
) -> (Reply, Option<Begun<'s>>)
    requires { AreAlike doc.old (Some begun.doc) }
    ensures { Turns id_of doc.old doc.new (Some begun.entry.doc) (doc_of result.1) own.old own.new
        (asked_by line.now.verb line.now.path json.now) (K.moment store.old) (Some result.0) (K.moment store.new) }
{
    stages_stay();
    batches_end();
    match line.verb {
        Word::Commit => keep(doc, begun, own, store),
        Word::Abort => (drop_batch(doc, begun, own), None),
        _ => match ask_inside(alloc, doc, own, line, json, store) {
            Some(reply) => (reply, Some(begun)),
            None => (Reply::No(No::Batch), Some(begun)),
        },
    }
}

/// Does what a line that was read asks for.
pub(crate) fn obey<'s, K: Store>(
    alloc: Global,
    doc: &mut Doc<'s>,
    begun: &mut Option<Begun<'s>>,
    own: &mut OwnBlocks,
    line: &Line,
    json: &[u8],
    store: &mut K,
) -> Reply
    requires { AreAlike doc.old (doc_of begun.old) }
    ensures { Turns id_of doc.old doc.new (doc_of begun.old) (doc_of begun.new) own.old own.new
        (asked_by line.now.verb line.now.path json.now) (K.moment store.old) (Some result) (K.moment store.new) }
{
    match begun.take() {
        None => {
            own.clear();
            let (reply, after) = answer_outside(alloc, doc, line, json, store);
            *begun = after;
            reply
        }
        Some(was) => {
            let (reply, after) = answer_inside(alloc, doc, was, own, line, json, store);
            *begun = after;
            reply
        }
    }
}

/// Answers a line, and leaves the document after it.
pub(crate) fn answer_line<'s, K: Store>(
    alloc: Global,
    doc: &mut Doc<'s>,
    begun: &mut Option<Begun<'s>>,
    own: &mut OwnBlocks,
    line: &[u8],
    store: &mut K,
) -> Option<Reply>
    requires { AreAlike doc.old (doc_of begun.old) }
    ensures turns { Turns id_of doc.old doc.new (doc_of begun.old) (doc_of begun.new) own.old own.new (asked (reads line.now)) (K.moment store.old) result (K.moment store.new) }
    ensures empty { result ≡ None → reads line.now ≡ blank }
    ensures silent { reads line.now ≡ blank → result ≡ None }
{
    stages_stay();
    match line_of(alloc, line) {
        Ok(None) => None,
        Ok(Some(read)) => {
            let json = &line[read.json_at..];
            Some(obey(alloc, doc, begun, own, &read, json, store))
        }
        Err(LineErr::Line) => Some(Reply::No(No::Line)),
        Err(LineErr::Memory) => Some(Reply::No(No::Memory)),
    }
}
