//! The lines of a script, one after another.
ghost use Rattle.std.specs.Prelude.{◌≡◌, ◌≤◌, ◌∷◌, position, length, IfOk, OnOk, OnErr, IsErrOf};
ghost use Rattle.ild_edges.specs.Count.{Rose};
ghost use Rattle.ild_edges.specs.Sink.{Appends, AppendsFront};
ghost use Rattle.ild_script.specs.Line.{lines_of, is_feed};
ghost use Rattle.ild_script.specs.Reply.{reply_text, is_no};
ghost use Rattle.ild_script_session.specs.Lines.{lines_left, bytes_left, AnswersLine, AnswersLines, CutsLine, CutsLines};
ghost use Rattle.ild_script_session.specs.declared.cut.Cut.TheVariants as cut;

use crate::{Cut, Session, write};
use ild_edges::{Sink, Store};
use ild_script::{Reply, reply_text};
use std::alloc::Global;

/// Where the first line feed stands.
fn feed_at(bytes: &[u8]) -> Option<usize>
    ensures { result ≡ position is_feed bytes.now }
{
    bytes.iter().position(|b| *b == b'\n')
}

/// The first line, and what is left behind its line feed.
fn cut_line(bytes: &[u8]) -> (&[u8], Option<&[u8]>)
    ensures cut { lines_of bytes.now ≡ result.0.now ∷ lines_left result.1 }
    ensures less { bytes_left result.1 ≤ length bytes.now }
{
    match feed_at(bytes) {
        Some(i) => (&bytes[..i], Some(&bytes[i + 1..])),
        None => (bytes, None),
    }
}

fn is_no(reply: &Reply) -> bool
    ensures { result ≡ is_no reply.now }
{
    matches!(reply, Reply::No(_))
}

/// Writes the line of a reply by one call of the sink. A refusal's is written without memory.
pub fn write_reply<W: Sink>(alloc: Global, reply: &Reply, out: &mut W) -> Result<(), Cut>
    ensures ok { OnOk result (Appends (W.output out.old).written (W.output out.new).written (reply_text reply.now)) }
    ensures err { OnErr result (AppendsFront (W.output out.old).written (W.output out.new).written (reply_text reply.now)) }
    ensures faults { (W.output out.old).faults ≤ (W.output out.new).faults }
    ensures sink { IsErrOf result cut.Sink → Rose (W.output out.old).faults (W.output out.new).faults }
{
    if let Some(text) = reply.fixed() {
        return write(out, text);
    }
    match reply_text(alloc, reply) {
        Ok(text) => write(out, text.as_slice()),
        Err(_) => Err(Cut::Memory),
    }
}

/// Answers one line, and says whether it was refused.
fn answer_and_write<S: Session, K: Store, W: Sink>(
    alloc: Global,
    session: &mut S,
    line: &[u8],
    store: &mut K,
    out: &mut W,
) -> Result<bool, Cut>
    requires { S.ready session.old (K.moment store.old) }
    ensures stays { S.ready session.new (K.moment store.new) }
    ensures done { IfOk result (λ refused. AnswersLine (S.stands session.old) (S.stands session.new) S.passes session.old session.new (K.moment store.old)
        line.now (K.moment store.new) (W.output out.old).written (W.output out.new).written refused) }
    ensures part { OnErr result (CutsLine (S.stands session.old) (S.stands session.new) S.passes session.old session.new (K.moment store.old)
        line.now (K.moment store.new) (W.output out.old).written (W.output out.new).written) }
    ensures same { S.subject session.new ≡ S.subject session.old }
    ensures faults { (W.output out.old).faults ≤ (W.output out.new).faults }
    ensures sink { IsErrOf result cut.Sink → Rose (W.output out.old).faults (W.output out.new).faults }
{
    match session.answer(alloc, line, store) {
        None => Ok(false),
        Some(reply) => {
            write_reply(alloc, &reply, out)?;
            Ok(is_no(&reply))
        }
    }
}

/// Answers the lines of a script in order, and says whether one was refused.
pub fn answer_all<S: Session, K: Store, W: Sink>(
    alloc: Global,
    session: &mut S,
    script: &[u8],
    store: &mut K,
    out: &mut W,
) -> Result<bool, Cut>
    requires { S.ready session.old (K.moment store.old) }
    ensures stays { S.ready session.new (K.moment store.new) }
    ensures done { IfOk result (λ refused. AnswersLines (S.stands session.old) (S.stands session.new) S.passes session.old session.new (K.moment store.old)
        (lines_of script.now) (K.moment store.new) (W.output out.old).written (W.output out.new).written refused) }
    ensures part { OnErr result (CutsLines (S.stands session.old) (S.stands session.new) S.passes session.old session.new (K.moment store.old)
        (lines_of script.now) (K.moment store.new) (W.output out.old).written (W.output out.new).written) }
    ensures same { S.subject session.new ≡ S.subject session.old }
    ensures faults { (W.output out.old).faults ≤ (W.output out.new).faults }
    ensures sink { IsErrOf result cut.Sink → Rose (W.output out.old).faults (W.output out.new).faults }
{
    let mut rest = Some(script);
    let mut refused = false;
    while let Some(bytes) = rest {
        let (line, after) = cut_line(bytes);
        refused |= answer_and_write(alloc, session, line, store, out)?;
        rest = after;
    }
    Ok(refused)
}
