//! What is answered behind links.
ghost use Rattle.std.specs.Prelude.{◌≡◌, ℕ, None, is_some, true};
ghost use Rattle.ild_data.specs.Spell.{id_of};
ghost use Rattle.ild_links_session.specs.Ready.{IsReady};
ghost use Rattle.ild_dirty.specs.Batch.{batch_moment};
ghost use Rattle.ild_links_session.specs.inside.Looking.{CrossesFrom, CrossesOverAlong, LooksAlong};
ghost use Rattle.ild_run_document.specs.Document.{begun_in};
ghost use Rattle.ild_run_links.specs.Moments.{HoldsBlock, HoldsValue};
ghost use Rattle.ild_script_meaning.specs.Ask.{asked_by};

use crate::asking::{tell_by, verb_by};
use ild_dirty::{Batch, OwnBlocks};
use ild_edges::Store;
use ild_links_edit::edit_across;
use ild_links_read::tell_across;
use ild_run_document::Document;
use ild_script::{Line, No, Reply};
use ild_script_batch::{carried_over_batch, later_beneath};
use ild_view_doc::Doc;
use std::alloc::Global;

/// A read or an edit along a path behind links, from a document on; an edit hands out the document that then is.
fn look<'s, K: Store>(
    alloc: Global,
    doc: &Doc<'s>,
    inside: bool,
    line: &Line,
    json: &[u8],
    store: &mut K,
) -> (Option<Reply>, Option<Doc<'s>>)
    requires held { HoldsBlock doc.now (K.moment store.old) }
    requires stands { HoldsValue id_of doc.now (K.moment store.old) }
    ensures { CrossesFrom doc.now inside (asked_by line.now.verb line.now.path json.now) (K.moment store.old) result.0 result.1 (K.moment store.new) }
{
    if let Some(what) = tell_by(line.verb) {
        return (tell_across(alloc, doc, what, &line.path, store), None);
    }
    let Some(verb) = verb_by(line.verb) else {
        return (None, None);
    };
    match doc.copy() {
        Ok(mut other) => {
            let found = edit_across(alloc, &mut other, inside, verb, &line.path, json, store);
            (found, Some(other))
        }
        Err(_) => (Some(Reply::No(No::Memory)), None),
    }
}

/// Outside a batch the session goes on with the document that then is.
fn look_outside<K: Store>(
    alloc: Global,
    inner: &mut Document<'_>,
    line: &Line,
    json: &[u8],
    store: &mut K,
) -> Option<Reply>
    requires outside { begun_in inner.old ≡ None }
    requires ready { IsReady inner.old (K.moment store.old) }
    ensures { LooksAlong inner.old inner.new (asked_by line.now.verb line.now.path json.now) (K.moment store.old) result (K.moment store.new) }
{
    let (found, other) = look(alloc, inner.doc(), false, line, json, store);
    if let Some(doc) = other {
        inner.replace(doc);
    }
    found
}

// Over a store and a batch's own blocks. Whatever document an edit hands out is the same, since inside a batch none crosses a link.
fn look_over<K: Store>(
    alloc: Global,
    doc: &Doc<'_>,
    own: &mut OwnBlocks,
    line: &Line,
    json: &[u8],
    store: &mut K,
) -> Option<Reply>
    requires held { (names : ℕ × ℕ) → HoldsBlock doc.now (batch_moment (K.moment store.old) own.old 0 0 names) }
    requires stands { (names : ℕ × ℕ) → HoldsValue id_of doc.now (batch_moment (K.moment store.old) own.old 0 0 names) }
    ensures { CrossesOverAlong doc.now (asked_by line.now.verb line.now.path json.now) (K.moment store.old) own.old result (K.moment store.new) own.new }
{
    // It does no work: its clause says what a store beneath a batch is then.
    later_beneath();
    let mut batch = Batch::new(own, store);
    let (found, _) = look(alloc, doc, true, line, json, &mut batch);
    found
}

/// Inside a batch what it holds of its own is looked for first, and the document stays.
fn look_inside<K: Store>(
    alloc: Global,
    inner: &mut Document<'_>,
    line: &Line,
    json: &[u8],
    store: &mut K,
) -> Option<Reply>
    requires inside { is_some (begun_in inner.old) ≡ true }
    requires ready { IsReady inner.old (K.moment store.old) }
    ensures { LooksAlong inner.old inner.new (asked_by line.now.verb line.now.path json.now) (K.moment store.old) result (K.moment store.new) }
{
    // They do no work: their clauses say what a batch over a store carries, and what the store is then.
    carried_over_batch();
    later_beneath();
    let mut own = inner.take_own(alloc);
    let found = look_over(alloc, inner.doc(), &mut own, line, json, store);
    inner.give_own(own);
    found
}

/// What is answered behind links; none where the path crosses none.
pub(crate) fn look_behind<K: Store>(
    alloc: Global,
    inner: &mut Document<'_>,
    line: &Line,
    json: &[u8],
    store: &mut K,
) -> Option<Reply>
    requires ready { IsReady inner.old (K.moment store.old) }
    ensures { LooksAlong inner.old inner.new (asked_by line.now.verb line.now.path json.now) (K.moment store.old) result (K.moment store.new) }
{
    if inner.in_batch() {
        look_inside(alloc, inner, line, json, store)
    } else {
        look_outside(alloc, inner, line, json, store)
    }
}
