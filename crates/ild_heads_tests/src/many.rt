//! Many heads, and a session of many lines at one of them, which is replayed. What is wanted is written event by event.
use crate::script::Step::{Begin, Commit, Head, Line, Replay};
use crate::script::{Step, run};
use std::alloc::{AllocError, Global};
use std::io;

const LINES: u32 = 5_000;

/// The names of the heads, which rise.
fn names(alloc: Global) -> Result<Vec<String>, AllocError> {
    let mut names = Vec::new(alloc);
    for n in 1_000..1_500u32 {
        names.push(format!(in alloc; "{n}")?)?;
    }
    Ok(names)
}

/// A head of each name, and two sessions at one of them: the first, of one line, is committed before the second, whose many lines add one each,
/// and which is replayed and committed then.
fn steps<'n>(alloc: Global, names: &'n [String]) -> Result<Vec<Step<'n>>, AllocError> {
    let mut steps = Vec::new(alloc);
    for name in names {
        steps.push(Head(name.as_str(), 3))?;
    }
    steps.push(Begin(1, "1234"))?;
    steps.push(Begin(2, "1234"))?;
    for _ in 0..LINES {
        steps.push(Line(2, 1))?;
    }
    for step in [Line(1, 7), Commit(1), Commit(2), Replay(2), Commit(2)] {
        steps.push(step)?;
    }
    Ok(steps)
}

/// What these events are answered, with the heads at the end.
fn want(alloc: Global, names: &[String]) -> Result<String, AllocError> {
    let mut text = String::new(alloc);
    for _ in names {
        text.push_str("ok ")?;
    }
    text.push_str("ok ok ")?;
    for n in 0..LINES {
        let reply = format!(in alloc; "reply {} ", n.wrapping_add(3) % 256)?;
        text.push_str(reply.as_str())?;
    }
    // 3, 7 and 5,000 are 146 behind 19 times 256.
    text.push_str("reply 3 root 10 moved 10 ok root 146 ")?;
    for name in names {
        let end = if name.as_str() == "1234" {
            "146/2"
        } else {
            "3/0"
        };
        let line = format!(in alloc; "{}={end} ", name.as_str())?;
        text.push_str(line.as_str())?;
    }
    Ok(text)
}

#[test]
fn heads_and_lines(rt: HostRuntime) -> io::Result<()> {
    let names = names(rt.alloc())?;
    let steps = steps(rt.alloc(), &names)?;
    let want = want(rt.alloc(), &names)?;
    assert!(rt; run(rt.alloc(), &steps)?.as_str() == want.as_str());
    Ok(())
}
