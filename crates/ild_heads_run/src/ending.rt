//! The heads at the end of a script.
ghost use Rattle.std.specs.Prelude.{◌≤◌, OnOk, OnErr, IsErrOf};
ghost use Rattle.ild_edges.specs.Count.{Rose};
ghost use Rattle.ild_edges.specs.Sink.{Appends, AppendsFront};
ghost use Rattle.ild_script_session.specs.declared.cut.Cut.TheVariants as cut;
ghost use Rattle.ild_heads_run.specs.Ends.{end_of, ends};

use ild_edges::Sink;
use ild_heads::Heads;
use ild_heads_lines::head_text;
use ild_script_session::{Cut, write};
use std::alloc::Global;

/// Writes the line of a head.
fn write_head<W: Sink>(alloc: Global, heads: &Heads, name: &str, out: &mut W) -> Result<(), Cut>
    ensures ok { OnOk result (Appends (W.output out.old).written (W.output out.new).written (end_of heads.now name.now)) }
    ensures err { OnErr result (AppendsFront (W.output out.old).written (W.output out.new).written (end_of heads.now name.now)) }
    ensures faults { (W.output out.old).faults ≤ (W.output out.new).faults }
    ensures sink { IsErrOf result cut.Sink → Rose (W.output out.old).faults (W.output out.new).faults }
{
    // There is a head with each name that heads have, so that `None` never comes.
    let Some(root) = heads.head(name) else {
        return Ok(());
    };
    match head_text(alloc, name, &root) {
        Ok(text) => write(out, text.as_slice()),
        Err(_) => Err(Cut::Memory),
    }
}

/// Writes a line for each head, in the order of their names.
pub(crate) fn write_heads<W: Sink>(alloc: Global, heads: &Heads, out: &mut W) -> Result<(), Cut>
    ensures ok { OnOk result (Appends (W.output out.old).written (W.output out.new).written (ends heads.now)) }
    ensures err { OnErr result (AppendsFront (W.output out.old).written (W.output out.new).written (ends heads.now)) }
    ensures faults { (W.output out.old).faults ≤ (W.output out.new).faults }
    ensures sink { IsErrOf result cut.Sink → Rose (W.output out.old).faults (W.output out.new).faults }
{
    let names = match heads.names() {
        Ok(names) => names,
        Err(_) => return Err(Cut::Memory),
    };
    for name in names.as_slice() {
        write_head(alloc, heads, name.as_str(), out)?;
    }
    Ok(())
}
