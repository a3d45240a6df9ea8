//! A script is run.
ghost use Rattle.std.specs.Prelude.{◌≡◌, ◌≤◌, ◌<◌, length, IfOk, OnErr, IsErrOf};
ghost use Rattle.ild_edges.specs.Count.{Rose};
ghost use Rattle.ild_script.specs.Line.{lines_of};
ghost use Rattle.ild_script_session.specs.declared.cut.Cut.TheVariants as cut;
ghost use Rattle.ild_run_script.specs.inside.Lines.{DocCut, DocDone};
ghost use Rattle.ild_run_script.specs.Scripts.{Scripts};

use crate::ScriptFault;
use ild_data::Sha256Keys;
use ild_edges::{Sink, Store};
use ild_run_document::Document;
use ild_run_open::{Start, open};
use ild_run_standing::{held_are_standing, standing_are_at};
use ild_schema::{Accepted, TypeNo};
use ild_script_session::{Cut, answer_all};
use ild_view_doc::Doc;
use std::alloc::Global;

/// Answers the lines of a script, from a document on, and says whether one was refused.
fn answer_from<K: Store, W: Sink>(
    alloc: Global,
    doc: Doc<'_>,
    script: &[u8],
    store: &mut K,
    out: &mut W,
) -> Result<bool, Cut>
    ensures done { IfOk result (λ refused. DocDone doc.entry (K.moment store.old) (lines_of script.now) (K.moment store.new) (W.output out.old).written (W.output out.new).written refused) }
    ensures part { OnErr result (DocCut doc.entry (K.moment store.old) (lines_of script.now) (K.moment store.new) (W.output out.old).written (W.output out.new).written) }
    ensures faults { (W.output out.old).faults ≤ (W.output out.new).faults }
    ensures sink { IsErrOf result cut.Sink → Rose (W.output out.old).faults (W.output out.new).faults }
{
    let mut session = Document::of(alloc, doc);
    answer_all(alloc, &mut session, script, store, out)
}

/// Runs a script: opens the document from which it starts, answers its lines in order, and says whether one was refused.
///
/// Where the store tells what it holds, each line is answered as the same command is on the plain value of the type, from the value that
/// stands under the root on, or from the empty one. A root that is printed is the id of the block built from scratch from the value at
/// that line. A line that is refused changes nothing, and its cause is there.
pub fn run_script<K: Store, W: Sink>(
    alloc: Global,
    acc: &Accepted,
    ty: TypeNo,
    start: Start,
    script: &[u8],
    store: &mut K,
    out: &mut W,
) -> Result<bool, ScriptFault>
    requires { ty.0 < length acc.now }
    ensures { Scripts acc.now ty start script.now (K.moment store.old) (W.output out.old) result (K.moment store.new) (W.output out.new) }
{
    standing_are_at();
    held_are_standing();
    let doc = match open(alloc, acc, ty, start, &Sha256Keys, store) {
        Ok(doc) => doc,
        Err(fault) => return Err(ScriptFault::Start(fault)),
    };
    match answer_from(alloc, doc, script, store, out) {
        Ok(refused) => Ok(refused),
        Err(cut) => Err(ScriptFault::Cut(cut)),
    }
}
