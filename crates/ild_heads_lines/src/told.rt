//! What events are answered, as texts, and the lines at the end of a script.
ghost use Rattle.std.specs.Prelude.{◌≡◌, ◌++◌, ◌∷◌, [], IfOk, OnOk};
ghost use Rattle.ild_script.specs.Laws.{escape, segment_text};
ghost use Rattle.ild_heads_lines.specs.Told.{front_of, outcome_text, told_text, head_text, id_text};

use ild_data::{BlockId, Octets};
use ild_heads::Outcome;
use std::alloc::{AllocError, Global};

/// Appends a word, the text of a block's CID, and a line feed.
fn add_id(line: &mut Vec<u8>, alloc: Global, word: &[u8], id: &BlockId) -> Result<(), AllocError>
    ensures { OnOk result (line.new.items ≡ line.old.items ++ (word.now ++ (id_text id.now ++ 10 ∷ []))) }
{
    let cid = id.text(alloc)?;
    line.extend_from_slice(word)?;
    line.extend_from_slice(cid.as_str().as_bytes())?;
    line.push(b'\n')?;
    Ok(())
}

/// Appends the text of an outcome.
fn add_outcome(line: &mut Vec<u8>, alloc: Global, outcome: &Outcome) -> Result<(), AllocError>
    ensures { OnOk result (line.new.items ≡ line.old.items ++ outcome_text outcome.now) }
{
    match outcome {
        Outcome::Done => line.extend_from_slice(b"ok null\n"),
        Outcome::Reply(reply) => line.extend_from_slice(reply.as_slice()),
        Outcome::Root(id) => add_id(line, alloc, b"root ", id),
        Outcome::Moved(id) => add_id(line, alloc, b"no 17 moved ", id),
        Outcome::Taken => line.extend_from_slice(b"no 18 head\n"),
        Outcome::NoHead => line.extend_from_slice(b"no 18 head\n"),
        Outcome::Busy => line.extend_from_slice(b"no 19 session\n"),
        Outcome::Idle => line.extend_from_slice(b"no 19 session\n"),
    }
}

/// The number of a session and a space, or nothing.
fn front_of(alloc: Global, session: Option<u32>) -> Result<Vec<u8>, AllocError>
    ensures { IfOk result (λ line. line.items ≡ front_of session) }
{
    match session {
        Some(number) => {
            let text = format!(in alloc; "{number} ")?;
            Ok(text.into_bytes())
        }
        None => Ok(Vec::new(alloc)),
    }
}

/// The line that an event is answered, with the number of its session in front.
pub fn told_text(
    alloc: Global,
    session: Option<u32>,
    outcome: &Outcome,
) -> Result<Octets, AllocError>
    ensures { IfOk result (λ line. line ≡ told_text session outcome.now) }
{
    let mut line = front_of(alloc, session)?;
    add_outcome(&mut line, alloc, outcome)?;
    Ok(Octets::from_vec(line))
}

/// Appends a byte as a segment writes it.
fn add_byte(line: &mut Vec<u8>, byte: u8) -> Result<(), AllocError>
    ensures { OnOk result (line.new.items ≡ line.old.items ++ escape byte) }
{
    if byte == b'~' {
        return line.extend_from_slice(b"~0");
    }
    if byte == b'/' {
        return line.extend_from_slice(b"~1");
    }
    if byte == b' ' {
        return line.extend_from_slice(b"~2");
    }
    if byte == b'\n' {
        return line.extend_from_slice(b"~3");
    }
    line.push(byte)?;
    Ok(())
}

/// Appends a text as a segment writes it.
fn add_segment(line: &mut Vec<u8>, text: &[u8]) -> Result<(), AllocError>
    ensures { OnOk result (line.new.items ≡ line.old.items ++ segment_text text.now) }
{
    for byte in text {
        add_byte(line, *byte)?;
    }
    Ok(())
}

/// The line of a head at the end of a script.
pub fn head_text(alloc: Global, name: &str, root: &BlockId) -> Result<Octets, AllocError>
    ensures { IfOk result (λ line. line ≡ head_text name.now root.now) }
{
    let mut line = Vec::new(alloc);
    line.extend_from_slice(b"head ")?;
    add_segment(&mut line, name.as_bytes())?;
    add_id(&mut line, alloc, b" ", root)?;
    Ok(Octets::from_vec(line))
}
