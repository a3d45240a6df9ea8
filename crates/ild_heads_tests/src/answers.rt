//! Lines over named heads, answered, with names and lines of 100,000 letters among them.
use crate::Adder;
use ild_heads::Heads;
use ild_heads_script::{answer, said_text};
use std::alloc::{AllocError, Global};
use std::io;

/// What lines are answered, one behind the other.
fn answers(alloc: Global, lines: &[&str]) -> Result<Vec<u8>, AllocError> {
    let mut work = Adder { alloc };
    let mut heads = Heads::new(alloc);
    let mut text = Vec::new(alloc);
    for line in lines {
        let said = answer(alloc, &mut heads, line.as_bytes(), &mut work);
        text.extend_from_slice(said_text(alloc, &said)?.as_slice())?;
    }
    Ok(text)
}

/// The lines are answered in order: nothing, two heads of one name, a session at it, a line that adds 103 to 0 and one that adds 115, the
/// commit, one of no session, a head at a root, and what is no line. The CID is that of the id that begins with 218 (base64 of Python).
const WANT: &[u8] =
    b"ok null\nno 18 head\n1 ok null\n1 \x001 g1 root bafyreig2aaaaaaaaaaaaaaaaaaaaaaaaaaaaaaaaaaaaaaaaaaaaaaaaaa\n2 no 19 session\nok null\nno 1 line\n";

#[test]
fn of_long_names_and_lines(rt: HostRuntime) -> io::Result<()> {
    let alloc = rt.alloc();
    let mut name = String::new(alloc);
    for _ in 0..10_000 {
        name.push_str("abcdefghij")?;
    }
    let head = format!(in alloc; "head {} -", name.as_str())?;
    let begin = format!(in alloc; "1 begin {}", name.as_str())?;
    let set = format!(in alloc; "1 set /{} 1", name.as_str())?;
    let lines = [
        "",
        head.as_str(),
        head.as_str(),
        begin.as_str(),
        "1 get .",
        set.as_str(),
        "1 commit",
        "2 commit",
        "head h bafyreigbtj4x7ip5legnfznufuopl4sg4knzc2cof6duas4b3q2fy6swua",
        "1 foo",
    ];
    assert!(rt; answers(alloc, &lines)?.as_slice() == WANT);
    Ok(())
}
