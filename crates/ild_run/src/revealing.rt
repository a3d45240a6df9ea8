//! A call that shows the value under a root that names its schema.
ghost use Rattle.ild_run.specs.Named.{RevealsRoot, root_shown};
ghost use Rattle.ild_run.specs.Opening.{AsksRoot};

use crate::fault::Fault;
use crate::open::asked_root;
use crate::showing::tell_shown;
use crate::status::Status;
use ild_data::{BlockId, Sha256Keys};
use ild_edges::{Sink, Store};
use ild_run_named::show_named;
use std::alloc::Global;

/// The root of `show ROOT`, where ROOT is the text of a block id; or `None` where the words are others.
pub(crate) fn root_shown(alloc: Global, words: &[String]) -> Result<Option<BlockId>, Fault>
    ensures { AsksRoot (root_shown words.now) result }
{
    match words {
        [verb, root] if verb.as_str() == "show" => asked_root(alloc, root.as_str()),
        _ => Ok(None),
    }
}

/// Opens the value under a root by the type and the schema that the root names, writes its JSON, and answers how it ended.
pub(crate) fn reveal<K: Store, W: Sink>(
    alloc: Global,
    root: &BlockId,
    store: &mut K,
    out: &mut W,
) -> Status
    ensures { RevealsRoot root.now.0 (K.moment store.old) (W.output out.old) result (K.moment store.new) (W.output out.new) }
{
    let shown = show_named(alloc, root, &Sha256Keys, store);
    tell_shown(alloc, shown, out)
}
