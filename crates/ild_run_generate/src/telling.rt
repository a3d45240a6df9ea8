//! The lines of a summary.
ghost use Rattle.std.specs.Prelude.{◌≡◌, ◌≤◌, OnOk, OnErr, IfOk, IsErrOf};
ghost use Rattle.ild_edges.specs.Count.{Rose};
ghost use Rattle.ild_edges.specs.Sink.{Appends, AppendsFront};
ghost use Rattle.ild_run_generate.specs.Text.{count_line, counts_text, summary_text};
ghost use Rattle.ild_script_session.specs.declared.cut.Cut.TheVariants as cut;

use crate::summary::Summary;
use ild_data::Octets;
use ild_edges::Sink;
use ild_script::Reply;
use ild_script_session::{Cut, write, write_reply};
use std::alloc::{AllocError, Global};

/// A word with a space, and a number.
fn count_line(alloc: Global, word: &[u8], n: u64) -> Result<Octets, AllocError>
    ensures { IfOk result (λ line. line ≡ count_line word.now n) }
{
    let mut line = word.to_vec(alloc)?;
    line.extend_from_slice(n.to_string(alloc)?.as_bytes())?;
    line.push(b'\n')?;
    Ok(Octets::from_vec(line))
}

/// Writes the line of a count.
fn write_count<W: Sink>(alloc: Global, word: &[u8], n: u64, out: &mut W) -> Result<(), Cut>
    ensures ok { OnOk result (Appends (W.output out.old).written (W.output out.new).written (count_line word.now n)) }
    ensures err { OnErr result (AppendsFront (W.output out.old).written (W.output out.new).written (count_line word.now n)) }
    ensures faults { (W.output out.old).faults ≤ (W.output out.new).faults }
    ensures sink { IsErrOf result cut.Sink → Rose (W.output out.old).faults (W.output out.new).faults }
{
    match count_line(alloc, word, n) {
        Ok(line) => write(out, line.as_slice()),
        Err(_) => Err(Cut::Memory),
    }
}

/// Writes the lines of the counts.
fn write_counts<W: Sink>(alloc: Global, summary: &Summary, out: &mut W) -> Result<(), Cut>
    ensures ok { OnOk result (Appends (W.output out.old).written (W.output out.new).written (counts_text summary.now)) }
    ensures err { OnErr result (AppendsFront (W.output out.old).written (W.output out.new).written (counts_text summary.now)) }
    ensures faults { (W.output out.old).faults ≤ (W.output out.new).faults }
    ensures sink { IsErrOf result cut.Sink → Rose (W.output out.old).faults (W.output out.new).faults }
{
    if let Err(cut) = write_count(alloc, b"sets ", summary.sets, out) {
        return Err(cut);
    }
    if let Err(cut) = write_count(alloc, b"dels ", summary.dels, out) {
        return Err(cut);
    }
    if let Err(cut) = write_count(alloc, b"absent ", summary.absent, out) {
        return Err(cut);
    }
    write_count(alloc, b"len ", summary.len, out)
}

/// Writes the five lines of a summary, each by one call of the sink.
pub fn write_summary<W: Sink>(alloc: Global, summary: &Summary, out: &mut W) -> Result<(), Cut>
    ensures ok { OnOk result (Appends (W.output out.old).written (W.output out.new).written (summary_text summary.now)) }
    ensures err { OnErr result (AppendsFront (W.output out.old).written (W.output out.new).written (summary_text summary.now)) }
    ensures faults { (W.output out.old).faults ≤ (W.output out.new).faults }
    ensures sink { IsErrOf result cut.Sink → Rose (W.output out.old).faults (W.output out.new).faults }
{
    write_counts(alloc, summary, out)?;
    write_reply(alloc, &Reply::Root(summary.root), out)
}
