//! What a line is answered, written.
ghost use Rattle.std.specs.Prelude.{◌≡◌, ◌≤◌, IfOk, OnErr, IsErrOf};
ghost use Rattle.ild_edges.specs.Count.{Rose};
ghost use Rattle.ild_edges.specs.Sink.{Appends, AppendsFront};
ghost use Rattle.ild_heads_lines.specs.Told.{told_text};
ghost use Rattle.ild_heads_script.specs.Said.{said_text};
ghost use Rattle.ild_script.specs.Reply.{no_text};
ghost use Rattle.ild_script_session.specs.declared.cut.Cut.TheVariants as cut;
ghost use Rattle.ild_heads_run.specs.Says.{is_numbering, says_no};

use ild_edges::Sink;
use ild_heads::Outcome;
use ild_heads_lines::told_text;
use ild_heads_script::Said;
use ild_script::{No, Reply};
use ild_script_session::{Cut, write, write_reply};
use std::alloc::Global;

fn is_numbering(byte: u8) -> bool
    ensures { result ≡ is_numbering byte }
{
    byte == b' ' || (byte > 47 && byte < 58)
}

/// Whether a line says no, behind the number of a session if it has one.
fn says_no(line: &[u8]) -> bool
    ensures { result ≡ says_no line.now }
{
    for (i, byte) in line.iter().enumerate() {
        if !is_numbering(*byte) {
            return line[i..].starts_with(b"no ");
        }
    }
    false
}

/// Writes a refusal, for which no memory is taken.
fn refuse<W: Sink>(alloc: Global, no: No, out: &mut W) -> Result<bool, Cut>
    ensures done { IfOk result (λ refused. Appends (W.output out.old).written (W.output out.new).written (no_text no) × (refused ≡ says_no (no_text no))) }
    ensures part { OnErr result (AppendsFront (W.output out.old).written (W.output out.new).written (no_text no)) }
    ensures faults { (W.output out.old).faults ≤ (W.output out.new).faults }
    ensures sink { IsErrOf result cut.Sink → Rose (W.output out.old).faults (W.output out.new).faults }
{
    write_reply(alloc, &Reply::No(no), out)?;
    Ok(true)
}

/// Writes the line that an event is answered.
fn tell<W: Sink>(
    alloc: Global,
    session: Option<u32>,
    outcome: &Outcome,
    out: &mut W,
) -> Result<bool, Cut>
    ensures done { IfOk result (λ refused. Appends (W.output out.old).written (W.output out.new).written (told_text session outcome.now) × (refused ≡ says_no (told_text session outcome.now))) }
    ensures part { OnErr result (AppendsFront (W.output out.old).written (W.output out.new).written (told_text session outcome.now)) }
    ensures faults { (W.output out.old).faults ≤ (W.output out.new).faults }
    ensures sink { IsErrOf result cut.Sink → Rose (W.output out.old).faults (W.output out.new).faults }
{
    let text = match told_text(alloc, session, outcome) {
        Ok(text) => text,
        Err(_) => return Err(Cut::Memory),
    };
    write(out, text.as_slice())?;
    Ok(says_no(text.as_slice()))
}

/// Writes what a line is answered, and says whether that says no.
pub(crate) fn say<W: Sink>(alloc: Global, said: &Said, out: &mut W) -> Result<bool, Cut>
    ensures done { IfOk result (λ refused. Appends (W.output out.old).written (W.output out.new).written (said_text said.now) × (refused ≡ says_no (said_text said.now))) }
    ensures part { OnErr result (AppendsFront (W.output out.old).written (W.output out.new).written (said_text said.now)) }
    ensures faults { (W.output out.old).faults ≤ (W.output out.new).faults }
    ensures sink { IsErrOf result cut.Sink → Rose (W.output out.old).faults (W.output out.new).faults }
{
    match said {
        Said::Nothing => Ok(false),
        Said::No(no) => refuse(alloc, *no, out),
        Said::Told(session, outcome) => tell(alloc, *session, outcome, out),
    }
}
