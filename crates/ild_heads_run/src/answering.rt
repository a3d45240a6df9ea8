//! The lines of a script, answered one after another.
ghost use Rattle.std.specs.Prelude.{◌≡◌, ◌≤◌, IfOk, OnErr, IsErrOf, IsTrue};
ghost use Rattle.ild_edges.specs.Count.{Rose};
ghost use Rattle.ild_heads.specs.Legal.{AreLegal};
ghost use Rattle.ild_script.specs.Line.{lines_of};
ghost use Rattle.ild_script_session.specs.declared.cut.Cut.TheVariants as cut;
ghost use Rattle.ild_heads_run.specs.inside.Lines.{LineDone, LineCut, LinesDone, LinesCut};

use crate::lines::cut_line;
use crate::saying::say;
use ild_edges::Sink;
use ild_heads::Heads;
use ild_heads_script::{Roots, answer};
use ild_script_session::Cut;
use std::alloc::Global;

/// Answers one line, and says whether its text says no.
fn answer_and_write<R: Roots, W: Sink>(
    alloc: Global,
    heads: &mut Heads,
    line: &[u8],
    work: &mut R,
    out: &mut W,
) -> Result<bool, Cut>
    requires { IsTrue (R.told work.old) → AreLegal (R.stands work.old) (R.plain (R.rules work.old)) heads.old }
    ensures done { IfOk result (λ refused. LineDone R.told R.stands (R.plain (R.rules work.new)) R.ran R.later R.is_empty R.cause
        work.old heads.old line.now work.new heads.new (W.output out.old).written (W.output out.new).written refused) }
    ensures part { OnErr result (LineCut R.told R.stands (R.plain (R.rules work.new)) R.ran R.later R.is_empty R.cause
        work.old heads.old line.now work.new heads.new (W.output out.old).written (W.output out.new).written) }
    ensures legal { IsTrue (R.told work.new) → AreLegal (R.stands work.new) (R.plain (R.rules work.new)) heads.new }
    ensures same { R.rules work.new ≡ R.rules work.old }
    ensures faults { (W.output out.old).faults ≤ (W.output out.new).faults }
    ensures sink { IsErrOf result cut.Sink → Rose (W.output out.old).faults (W.output out.new).faults }
{
    let said = answer(alloc, heads, line, work);
    say(alloc, &said, out)
}

/// Answers the lines of a script in order, and says whether the text of one says no.
pub(crate) fn answer_all<R: Roots, W: Sink>(
    alloc: Global,
    heads: &mut Heads,
    script: &[u8],
    work: &mut R,
    out: &mut W,
) -> Result<bool, Cut>
    requires { IsTrue (R.told work.old) → AreLegal (R.stands work.old) (R.plain (R.rules work.old)) heads.old }
    ensures done { IfOk result (λ refused. LinesDone R.told R.stands (R.plain (R.rules work.old)) R.ran R.later R.is_empty R.cause
        work.old heads.old (lines_of script.now) work.new heads.new (W.output out.old).written (W.output out.new).written refused) }
    ensures part { OnErr result (LinesCut R.told R.stands (R.plain (R.rules work.old)) R.ran R.later R.is_empty R.cause
        work.old heads.old (lines_of script.now) work.new heads.new (W.output out.old).written (W.output out.new).written) }
    ensures legal { IsTrue (R.told work.new) → AreLegal (R.stands work.new) (R.plain (R.rules work.new)) heads.new }
    ensures same { R.rules work.new ≡ R.rules work.old }
    ensures faults { (W.output out.old).faults ≤ (W.output out.new).faults }
    ensures sink { IsErrOf result cut.Sink → Rose (W.output out.old).faults (W.output out.new).faults }
{
    let mut rest = Some(script);
    let mut refused = false;
    while let Some(bytes) = rest {
        let (line, after) = cut_line(bytes);
        refused |= answer_and_write(alloc, heads, line, work, out)?;
        rest = after;
    }
    Ok(refused)
}
