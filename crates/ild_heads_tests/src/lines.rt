//! The lines of scripts over named heads, read and written.
use crate::read::shown;
use ild_data::{BlockId, Octets, block_id};
use ild_heads::Outcome;
use ild_heads_lines::{head_text, told_text};
use std::alloc::Global;
use std::io;

/// Lines, each with what it reads as. The CID is that of the block `a0`, whose sha2-256 begins with 193 (hashlib and base64 of Python).
const LINES: [(&str, &str); 13] = [
    ("", "blank"),
    ("head h -", "empty [h]"),
    ("head ~1~0~2 -", "empty [/~ ]"),
    (
        "head h bafyreigbtj4x7ip5legnfznufuopl4sg4knzc2cof6duas4b3q2fy6swua",
        "head [h] 193",
    ),
    ("1 begin h", "begin 1 [h]"),
    ("999 begin begin", "begin 999 [begin]"),
    ("0 commit", "commit 0"),
    ("10 replay", "replay 10"),
    ("7 abort", "abort 7"),
    ("1 set /a 1", "line 1 8"),
    ("2 get .", "line 2 5"),
    ("3 root", "line 3 4"),
    ("4 del /~3", "line 4 7"),
];

const OUTSIDE: [&str; 20] = [
    " ",
    "1",
    "1 ",
    "1 begin",
    "1 begin ",
    "1 begin a/b",
    "1 begin a b",
    "1 begin ~4",
    "1 get",
    "1 foo",
    "1 commit ",
    "01 commit",
    "1000 commit",
    "-1 commit",
    "+1 commit",
    "head h",
    "head  -",
    "head h --",
    "head h bafy",
    "begin h",
];

#[test]
fn lines_are_read(rt: HostRuntime) -> io::Result<()> {
    for (line, want) in &LINES {
        assert_eq!(rt; shown(rt.alloc(), line)?.as_str(), *want);
    }
    Ok(())
}

#[test]
fn other_lines_are_outside(rt: HostRuntime) -> io::Result<()> {
    for line in &OUTSIDE {
        assert_eq!(rt; shown(rt.alloc(), line)?.as_str(), "outside", "{line}");
    }
    Ok(())
}

fn head_line(alloc: Global, name: &str, root: &BlockId) -> io::Result<Octets> {
    Ok(head_text(alloc, name, root)?)
}

#[test]
fn a_head_is_written_and_read(rt: HostRuntime) -> io::Result<()> {
    let root = block_id(&[0xa0]);
    let line = head_line(rt.alloc(), "a /~", &root)?;
    let want = b"head a~2~1~0 bafyreigbtj4x7ip5legnfznufuopl4sg4knzc2cof6duas4b3q2fy6swua\n";
    assert!(rt; line.as_slice() == want.as_slice());
    Ok(())
}

fn told(alloc: Global, session: Option<u32>, outcome: &Outcome, want: &str) -> io::Result<bool> {
    Ok(told_text(alloc, session, outcome)?.as_slice() == want.as_bytes())
}

#[test]
fn outcomes_are_written(rt: HostRuntime) -> io::Result<()> {
    let alloc = rt.alloc();
    let root = block_id(&[0xa0]);
    let moved = "12 no 17 moved bafyreigbtj4x7ip5legnfznufuopl4sg4knzc2cof6duas4b3q2fy6swua\n";
    assert!(rt; told(alloc, None, &Outcome::Done, "ok null\n")?);
    assert!(rt; told(alloc, None, &Outcome::Taken, "no 18 head\n")?);
    assert!(rt; told(alloc, Some(0), &Outcome::NoHead, "0 no 18 head\n")?);
    assert!(rt; told(alloc, Some(1), &Outcome::Busy, "1 no 19 session\n")?);
    assert!(rt; told(alloc, Some(12), &Outcome::Moved(root), moved)?);
    Ok(())
}

#[test]
fn a_head_of_a_long_name_is_written(rt: HostRuntime) -> io::Result<()> {
    let alloc = rt.alloc();
    let mut name = String::new(alloc);
    let mut want = String::from_str(alloc, "head ")?;
    for _ in 0..10_000 {
        name.push_str("abc defgh~")?;
        want.push_str("abc~2defgh~0")?;
    }
    want.push_str(" bafyreigbtj4x7ip5legnfznufuopl4sg4knzc2cof6duas4b3q2fy6swua\n")?;
    let line = head_line(alloc, name.as_str(), &block_id(&[0xa0]))?;
    assert!(rt; line.as_slice() == want.as_bytes());
    Ok(())
}
