//! Runs of a script over the objects in memory, of which each take, get, put and write fails in turn.
use hex::decode;
use ild_edges::{MemInputs, MemSink, MemStore};
use ild_run::run;
use std::alloc::{AllocError, Global};

/// A schema and a type of it, the root of a value and the blocks beneath it in hexadecimals, a line for each; the lines of a script, and the
/// replies where no call fails.
#[derive(Clone, Copy)]
pub(crate) struct Session {
    pub(crate) schema: &'static str,
    pub(crate) ty: &'static str,
    pub(crate) root: &'static str,
    pub(crate) blocks: &'static str,
    pub(crate) script: &'static str,
    pub(crate) replies: &'static str,
}

/// The calls of which one fails.
#[derive(Clone, Copy, PartialEq)]
pub(crate) enum Call {
    Take,
    Get,
    Put,
    Write,
}

/// How a run ended.
#[derive(Drop)]
pub(crate) struct Ended {
    status: u8,
    out: MemSink,
    store: MemStore,
}

/// The number, where it is that of this call.
fn of<'n>(call: Call, other: Call, number: &'n [u64]) -> &'n [u64] {
    if call == other { number } else { &[] }
}

pub(crate) fn owned(alloc: Global, words: &[&str]) -> Result<Vec<String>, AllocError> {
    let mut all = Vec::new(alloc);
    for word in words {
        all.push(String::from_str(alloc, *word)?)?;
    }
    Ok(all)
}

/// A store that holds these blocks.
fn store_of(alloc: Global, blocks: &str, gets: &[u64], puts: &[u64]) -> Option<MemStore> {
    let mut store = MemStore::new(alloc, gets, puts).ok()?;
    for block in blocks.lines() {
        store.add(&decode(alloc, block).ok()?).ok()?;
    }
    Some(store)
}

fn inputs_of(alloc: Global, session: &Session, takes: &[u64]) -> Option<MemInputs> {
    let mut inputs = MemInputs::new(alloc, takes).ok()?;
    inputs.add("s", session.schema.as_bytes()).ok()?;
    inputs.add("x", session.script.as_bytes()).ok()?;
    Some(inputs)
}

/// A run of which the call with a number fails.
pub(crate) fn ended_by(alloc: Global, session: &Session, call: Call, number: u64) -> Option<Ended> {
    let number = [number];
    let words = owned(alloc, &["run", "s", session.ty, session.root, "x"]).ok()?;
    let mut inputs = inputs_of(alloc, session, of(call, Call::Take, &number))?;
    let gets = of(call, Call::Get, &number);
    let puts = of(call, Call::Put, &number);
    let mut store = store_of(alloc, session.blocks, gets, puts)?;
    let mut out = MemSink::new(alloc, of(call, Call::Write, &number)).ok()?;
    let status = run(alloc, &words, &mut inputs, &mut store, &mut out).code();
    Some(Ended { status, out, store })
}

/// Whether the value under a root is shown.
fn is_shown(alloc: Global, session: &Session, root: &str, store: &mut MemStore) -> Option<bool> {
    let mut words = owned(alloc, &["show", "s", session.ty]).ok()?;
    words.push(String::from_str(alloc, root).ok()?).ok()?;
    let mut inputs = inputs_of(alloc, session, &[])?;
    let mut out = MemSink::new(alloc, &[]).ok()?;
    Some(run(alloc, &words, &mut inputs, store, &mut out).code() == 0)
}

/// Whether the value under each root of these replies is shown.
fn are_held(alloc: Global, session: &Session, text: &str, store: &mut MemStore) -> Option<bool> {
    for line in text.lines() {
        if let Some(root) = line.strip_prefix("root ") {
            if !is_shown(alloc, session, root, store)? {
                return None;
            }
        }
    }
    Some(true)
}

/// Whether a run wrote this and has this status, and the value under each root in it is held.
pub(crate) fn is_so(
    alloc: Global,
    session: &Session,
    ended: &mut Ended,
    text: &str,
    status: u8,
) -> Option<bool> {
    let same = ended.out.bytes() == text.as_bytes() && ended.status == status;
    Some(same && are_held(alloc, session, text, &mut ended.store)?)
}

/// Appends a reply, or the other in its place where that isn't empty.
fn add_reply(text: &mut String, reply: &str, other: &str) -> Result<(), AllocError> {
    if other.is_empty() {
        text.push_str(reply)?;
    } else {
        text.push_str(other)?;
    }
    text.push('\n')?;
    Ok(())
}

/// Replies with others in their places; an empty line stands for the reply itself.
fn merged(alloc: Global, replies: &str, others: &str) -> Result<String, AllocError> {
    let mut text = String::new(alloc);
    let mut left = others.lines();
    for reply in replies.lines() {
        match left.next() {
            Some(other) => add_reply(&mut text, reply, other)?,
            None => add_reply(&mut text, reply, "")?,
        }
    }
    Ok(text)
}

/// The first replies, so many of them.
fn front(alloc: Global, replies: &str, count: usize) -> Result<String, AllocError> {
    let mut text = String::new(alloc);
    for reply in replies.lines().take(count) {
        text.push_str(reply)?;
        text.push('\n')?;
    }
    Ok(text)
}

/// The status of a script with these replies.
fn status_of(replies: &str) -> u8 {
    u8::from(replies.split_once("no ").is_some())
}

/// More calls than any run here has.
const MANY: u64 = 100;

/// How many calls, from the one with a number on, are such that the run has the replies of a row where that call fails.
pub(crate) fn calls_of_row(
    alloc: Global,
    session: &Session,
    call: Call,
    first: u64,
    others: &str,
) -> Option<u64> {
    let text = merged(alloc, session.replies, others).ok()?;
    for times in 0..MANY {
        let mut ended = ended_by(alloc, session, call, first.saturating_add(times))?;
        if !is_so(alloc, session, &mut ended, text.as_str(), 1)? {
            return Some(times);
        }
    }
    None
}

/// Whether each call before the first line, so many of them, is a fault of the store.
fn are_faults(alloc: Global, session: &Session, call: Call, opening: u64) -> Option<bool> {
    for before in 0..opening {
        let mut ended = ended_by(alloc, session, call, before.saturating_add(1))?;
        if !is_so(alloc, session, &mut ended, "fault 6 store\n", 6)? {
            return None;
        }
    }
    Some(true)
}

/// Each call fails in turn: those before the first line, so many of them, and the others such that each row comes, in order; the one behind the
/// last call is none.
pub(crate) fn in_turn(
    alloc: Global,
    session: &Session,
    call: Call,
    opening: u64,
    rows: &[&'static str],
) -> Result<(), &'static str> {
    if are_faults(alloc, session, call, opening) != Some(true) {
        return Err("a fault before the first line");
    }
    let mut number = opening.saturating_add(1);
    for others in rows {
        match calls_of_row(alloc, session, call, number, others) {
            Some(times) if times > 0 => number = number.saturating_add(times),
            _ => return Err(*others),
        }
    }
    // Its roots are held as those of a run of which nothing fails; its store would fail while they are shown.
    let ended = ended_by(alloc, session, call, number).ok_or("memory")?;
    if ended.status != status_of(session.replies) {
        return Err("the status of a call behind the last");
    }
    if ended.out.bytes() != session.replies.as_bytes() {
        return Err("a call behind the last");
    }
    Ok(())
}

/// Each write fails in turn: what comes before it is written, and nothing behind it.
pub(crate) fn each_write(alloc: Global, session: &Session) -> Option<bool> {
    for before in 0..session.replies.lines().count() {
        let number = (before as u64).saturating_add(1);
        let mut ended = ended_by(alloc, session, Call::Write, number)?;
        let text = front(alloc, session.replies, before).ok()?;
        if !is_so(alloc, session, &mut ended, text.as_str(), 7)? {
            return None;
        }
    }
    Some(true)
}

/// Each take fails in turn, and there is no third.
pub(crate) fn each_take(alloc: Global, session: &Session) -> Option<bool> {
    let mut first = ended_by(alloc, session, Call::Take, 1)?;
    let mut second = ended_by(alloc, session, Call::Take, 2)?;
    let mut third = ended_by(alloc, session, Call::Take, 3)?;
    let status = status_of(session.replies);
    Some(
        is_so(
            alloc,
            session,
            &mut first,
            "fault 5 input schema failed\n",
            5,
        )? && is_so(
            alloc,
            session,
            &mut second,
            "fault 5 input script failed\n",
            5,
        )? && is_so(alloc, session, &mut third, session.replies, status)?,
    )
}
