//! The line that tells an answer.
ghost use Rattle.std.specs.Prelude.{false};
ghost use Rattle.ild_data.specs.Seen.{data_of};
ghost use Rattle.ild_data.specs.Spell.{spell};
ghost use Rattle.ild_inclusion.specs.Verifies.{answer_of};
ghost use Rattle.ild_inclusion.specs.declared.answer.Answer.TheVariants.{Here};
ghost use Rattle.ild_run_verify.specs.inside.Tells.{Tells, WritesText};
ghost use Rattle.ild_script.specs.Reply.{reply_text};

use crate::VerifyFault;
use ild_data::Tree;
use ild_edges::Sink;
use ild_inclusion::Part;
use ild_json::{PrintErr, print};
use ild_script::{No, Reply};
use ild_script_session::{write, write_reply};
use std::alloc::Global;

// Writes a reply, and hands on whether it tells of a part without JSON.
fn write_line<W: Sink>(
    alloc: Global,
    reply: &Reply,
    reserved: bool,
    out: &mut W,
) -> Result<bool, VerifyFault>
    ensures { WritesText (reply_text reply.now) reserved (W.output out.old) result (W.output out.new) }
{
    match write_reply(alloc, reply, out) {
        Ok(()) => Ok(reserved),
        Err(cut) => Err(VerifyFault::Cut(cut)),
    }
}

// Writes a text that tells of no part.
fn write_text<W: Sink>(text: &[u8], out: &mut W) -> Result<bool, VerifyFault>
    ensures { WritesText text.now false (W.output out.old) result (W.output out.new) }
{
    match write(out, text) {
        Ok(()) => Ok(false),
        Err(cut) => Err(VerifyFault::Cut(cut)),
    }
}

// Writes the line of a part.
fn tell_part<W: Sink>(alloc: Global, tree: &Tree, out: &mut W) -> Result<bool, VerifyFault>
    ensures { Tells (Here (spell (data_of tree.now))) (W.output out.old) result (W.output out.new) }
{
    tree.well_formed();
    match print(alloc, tree) {
        Ok(json) => write_line(alloc, &Reply::Ok(json), false, out),
        Err(PrintErr::Reserved) => write_line(alloc, &Reply::No(No::Reserved), true, out),
        Err(PrintErr::Memory) => Err(VerifyFault::Memory),
    }
}

/// Writes the line of an answer, and says whether it tells of a part whose representation has no JSON.
pub(crate) fn tell<W: Sink>(alloc: Global, part: &Part, out: &mut W) -> Result<bool, VerifyFault>
    ensures { Tells (answer_of part.now) (W.output out.old) result (W.output out.new) }
{
    match part {
        Part::Here(tree) => tell_part(alloc, tree, out),
        Part::Absent(_) => write_text(b"absent\n", out),
    }
}
