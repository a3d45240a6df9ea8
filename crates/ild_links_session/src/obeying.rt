//! What a line that was read makes of a session.
ghost use Rattle.std.specs.Prelude.{Some};
ghost use Rattle.ild_links_session.specs.Ready.{IsReady};
ghost use Rattle.ild_links_session.specs.inside.Looking.{TurnsLinked};
ghost use Rattle.ild_script_meaning.specs.Ask.{asked_by};

use crate::asking::looks_on;
use crate::looking::look_behind;
use ild_edges::Store;
use ild_run_document::Document;
use ild_script::{Line, Reply};
use std::alloc::Global;

/// A line is answered in the first tree, and then, where its path may lead no further there, behind links.
pub(crate) fn obey_linked<K: Store>(
    alloc: Global,
    inner: &mut Document<'_>,
    line: &Line,
    json: &[u8],
    store: &mut K,
) -> Reply
    requires { IsReady inner.old (K.moment store.old) }
    ensures { TurnsLinked inner.old inner.new (asked_by line.now.verb line.now.path json.now) (K.moment store.old) (Some result) (K.moment store.new) }
{
    let first = inner.obey(alloc, line, json, store);
    if !looks_on(line.verb, &first) {
        return first;
    }
    match look_behind(alloc, inner, line, json, store) {
        Some(reply) => reply,
        None => first,
    }
}
