//! A script over named heads, run.
ghost use Rattle.std.specs.Prelude.{◌<◌, length};
ghost use Rattle.ild_run_work.specs.Rules.{rules_of};
ghost use Rattle.ild_run_heads.specs.Heads.{HeadsRun};

use ild_edges::{Sink, Store};
use ild_heads_run::run_lines;
use ild_run_work::TypedRoots;
use ild_schema::{Accepted, TypeNo};
use ild_script_session::Cut;
use std::alloc::Global;

/// Runs a script over named heads, of which there are none at first: answers its lines in order, writes a line for each head at the end, and
/// says whether a line says no.
///
/// Its lines spell a list of events, and what is written are their outcomes. A head has a root, under which a value of the type stands in the
/// store, where this tells what it holds; a session's lines are answered as the same commands are on plain values, and their replies
/// are those due, or refusals that have their causes. Each head's root is reached from its first one by the commits of its log, in their order.
pub fn run_heads<K: Store, W: Sink>(
    alloc: Global,
    acc: &Accepted,
    ty: TypeNo,
    script: &[u8],
    store: &mut K,
    out: &mut W,
) -> Result<bool, Cut>
    requires { ty.0 < length acc.now }
    ensures { HeadsRun (rules_of acc.now ty) script.now (K.moment store.old) (W.output out.old) result (K.moment store.new) (W.output out.new) }
{
    let mut work = TypedRoots::of(alloc, acc, ty, store);
    run_lines(alloc, script, &mut work, out)
}
