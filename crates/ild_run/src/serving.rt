//! A call that answers a script over named heads.
ghost use Rattle.std.specs.Prelude.{◌<◌, length};
ghost use Rattle.ild_run.specs.inside.Headed.{HeadedAs};

use crate::status::Status;
use crate::top::cut_status;
use ild_edges::{Sink, Store};
use ild_run_heads::run_heads;
use ild_schema::{Accepted, TypeNo};
use std::alloc::Global;

/// Answers a script over named heads, under which values of a type stand, and answers how it ended.
pub(crate) fn serve<K: Store, W: Sink>(
    alloc: Global,
    schema: &Accepted,
    ty: TypeNo,
    script: &[u8],
    store: &mut K,
    out: &mut W,
) -> Status
    requires within { ty.0 < length schema.now }
    ensures { HeadedAs schema.now ty script.now (K.moment store.old) (W.output out.old) result (K.moment store.new) (W.output out.new) }
{
    schema.recall();
    match run_heads(alloc, schema, ty, script, store, out) {
        Ok(false) => Status::Done,
        Ok(true) => Status::Refused,
        Err(cut) => cut_status(cut),
    }
}
