//! A script over named heads, run.
ghost use Rattle.std.specs.Prelude.{◌≡◌, ◌≤◌, IfOk, OnErr, IsErrOf};
ghost use Rattle.ild_edges.specs.Count.{Rose};
ghost use Rattle.ild_script.specs.Line.{lines_of};
ghost use Rattle.ild_script_session.specs.declared.cut.Cut.TheVariants as cut;
ghost use Rattle.ild_heads_run.specs.Runs.{ScriptDone, ScriptCut};

use crate::answering::answer_all;
use crate::ending::write_heads;
use ild_edges::Sink;
use ild_heads::Heads;
use ild_heads_script::Roots;
use ild_script_session::Cut;
use std::alloc::Global;

/// Runs a script over named heads, of which there are none at first: answers its lines in order, writes a line for each head at the end, and
/// says whether a line says no.
///
/// Its lines spell a list of events, and what is written are their outcomes. Each head's root is reached from its first one by the commits of
/// its log, in their order.
pub fn run_lines<R: Roots, W: Sink>(
    alloc: Global,
    script: &[u8],
    work: &mut R,
    out: &mut W,
) -> Result<bool, Cut>
    ensures done { IfOk result (λ refused. ScriptDone R.told R.stands (R.plain (R.rules work.old)) R.ran R.later R.is_empty R.cause
        work.old (lines_of script.now) work.new (W.output out.old).written (W.output out.new).written refused) }
    ensures part { OnErr result (ScriptCut R.told R.stands (R.plain (R.rules work.old)) R.ran R.later R.is_empty R.cause
        work.old (lines_of script.now) work.new (W.output out.old).written (W.output out.new).written) }
    ensures same { R.rules work.new ≡ R.rules work.old }
    ensures faults { (W.output out.old).faults ≤ (W.output out.new).faults }
    ensures sink { IsErrOf result cut.Sink → Rose (W.output out.old).faults (W.output out.new).faults }
{
    let mut heads = Heads::new(alloc);
    let refused = answer_all(alloc, &mut heads, script, work, out)?;
    write_heads(alloc, &heads, out)?;
    Ok(refused)
}
