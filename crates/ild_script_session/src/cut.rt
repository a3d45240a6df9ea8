//! Texts that are written whole, or cut off.
ghost use Rattle.std.specs.Prelude.{◌≤◌, OnOk, OnErr, IsErrOf};
ghost use Rattle.ild_edges.specs.Count.{Rose};
ghost use Rattle.ild_edges.specs.Sink.{Appends, AppendsFront};
ghost use Rattle.ild_script_session.specs.declared.cut.Cut.TheVariants as cut;

use ild_edges::{EdgeErr, Sink};

/// Why a text was cut off: the sink failed, or memory is wanting.
#[derive(Clone, Copy)]
pub enum Cut {
    Sink,
    Memory,
}

/// Writes a piece by one call of the sink, and takes no memory itself.
pub fn write<W: Sink>(out: &mut W, piece: &[u8]) -> Result<(), Cut>
    ensures ok { OnOk result (Appends (W.output out.old).written (W.output out.new).written piece.now) }
    ensures err { OnErr result (AppendsFront (W.output out.old).written (W.output out.new).written piece.now) }
    ensures faults { (W.output out.old).faults ≤ (W.output out.new).faults }
    ensures sink { IsErrOf result cut.Sink → Rose (W.output out.old).faults (W.output out.new).faults }
{
    match out.write(piece) {
        Ok(()) => Ok(()),
        Err(EdgeErr::Failed) => Err(Cut::Sink),
        Err(EdgeErr::Memory) => Err(Cut::Memory),
    }
}
