//! Lines inside a batch.
ghost use Rattle.std.specs.Prelude.{◌≡◌, ◌≤◌, ◌-◌, ◌^◌, length};
ghost use Rattle.ild_run_document.specs.Null.{null_text};
ghost use Rattle.ild_script_batch.specs.Inside.{told_inside};
ghost use Rattle.ild_run_document.specs.Turns.{TurnsInside};
ghost use Rattle.ild_script_meaning.specs.Ask.{asked_by};
ghost use Rattle.ild_view_doc.specs.declared.doc.Doc.{Doc as DocSeen};

use crate::begun::null;
use ild_data::Txt;
use ild_dirty::{Batch, OwnBlocks};
use ild_edges::Store;
use ild_run_answers::ask;
use ild_script::{Line, No, Reply};
use ild_script_batch::{answers_inside, carried_over_batch, later_beneath, stages_stay};
use ild_view_doc::Doc;
use std::alloc::Global;

// It does no work: its clause says that there are no more blocks than a count can tell.
fn own_fit(own: &OwnBlocks)
    ensures { length own.now ≤ 2 ^ 64 - 1 }
{
    let _count = own.as_slice().len();
}

// The reply inside a batch, where an edit tells no root.
fn told_inside(reply: Reply, text: Txt) -> Reply
    requires { text ≡ null_text }
    ensures { result ≡ told_inside reply }
{
    match reply {
        Reply::Root(_) => Reply::Ok(text),
        Reply::Ok(json) => Reply::Ok(json),
        Reply::No(refusal) => Reply::No(refusal),
    }
}

/// Answers a line that reads or edits the value, over the store and the batch together. An edit is answered `null`, for which memory is
/// taken before.
pub(crate) fn ask_inside<K: Store>(
    alloc: Global,
    doc: &mut Doc<'_>,
    own: &mut OwnBlocks,
    line: &Line,
    json: &[u8],
    store: &mut K,
) -> Option<Reply>
    ensures { (b : DocSeen) → TurnsInside b doc.old doc.new own.old own.new (asked_by line.now.verb line.now.path json.now) (K.moment store.old) result (K.moment store.new) }
{
    // They do no work: their clauses say what an answer over a batch is inside it.
    answers_inside();
    carried_over_batch();
    later_beneath();
    stages_stay();
    let text = match null(alloc) {
        Ok(text) => text,
        Err(_) => return Some(Reply::No(No::Memory)),
    };
    let mut batch = Batch::new(own, store);
    let asked = ask(alloc, doc, line, json, &mut batch);
    own_fit(own);
    match asked {
        Some(reply) => Some(told_inside(reply, text)),
        None => None,
    }
}
