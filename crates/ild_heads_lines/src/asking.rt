//! What a line asks.
ghost use Rattle.std.specs.Prelude.{◌≡◌};
ghost use Rattle.ild_script.specs.Reads.{ReadsSo};
ghost use Rattle.ild_heads_lines.specs.Asks.{AsksAs, AsksText, asks_text, asks_head, asks_target, asks_session, asks_other, asks_line};

use crate::names::name_of;
use crate::numbers::number_of;
use crate::roots::root_of;
use ild_data::{Octets, Txt};
use ild_heads::Event;
use ild_script::{LineErr, Word, line_of};
use std::alloc::Global;
use std::str;

/// What a line asks: a head with the empty value, or an event.
#[derive(Drop)]
pub enum Asked {
    Empty(Txt),
    Event(Event),
}

/// What stands behind the name of a head: `-`, or a root.
fn target_of(alloc: Global, name: Txt, target: &str) -> Result<Asked, LineErr>
    ensures { AsksText result (asks_target name target.now) }
{
    if target == "-" {
        return Ok(Asked::Empty(name));
    }
    let root = root_of(alloc, target)?;
    Ok(Asked::Event(Event::Head(name, root)))
}

/// What stands behind `head `.
fn head_of(alloc: Global, rest: &str) -> Result<Asked, LineErr>
    ensures { AsksText result (asks_head rest.now) }
{
    match rest.split_once(' ') {
        Some((name, target)) => {
            let name = name_of(alloc, name)?;
            target_of(alloc, name, target)
        }
        None => Err(LineErr::Line),
    }
}

/// A line that a session runs.
fn own_line(alloc: Global, number: u32, rest: &str) -> Result<Asked, LineErr>
    ensures { AsksText result (asks_line number rest.now) }
{
    match line_of(alloc, rest.as_bytes()) {
        Ok(Some(line)) => {
            match line.verb {
                Word::Begin | Word::Commit | Word::Abort => Err(LineErr::Line),
                _ => { Ok(Asked::Event(Event::Line(number, Octets::of(alloc, rest.as_bytes())?))) }
            }
        }
        Ok(None) => Err(LineErr::Line),
        Err(err) => Err(err),
    }
}

/// A session that begins, or a line that one runs.
fn other_of(alloc: Global, number: u32, rest: &str) -> Result<Asked, LineErr>
    ensures { AsksText result (asks_other number rest.now) }
{
    match rest.strip_prefix("begin ") {
        Some(name) => { Ok(Asked::Event(Event::Begin(number, name_of(alloc, name)?))) }
        None => own_line(alloc, number, rest),
    }
}

/// What stands behind the number of a session.
fn session_of(alloc: Global, number: u32, rest: &str) -> Result<Asked, LineErr>
    ensures { AsksText result (asks_session number rest.now) }
{
    if rest == "commit" {
        return Ok(Asked::Event(Event::Commit(number)));
    }
    if rest == "replay" {
        return Ok(Asked::Event(Event::Replay(number)));
    }
    if rest == "abort" {
        return Ok(Asked::Event(Event::Abort(number)));
    }
    other_of(alloc, number, rest)
}

fn asked_of_text(alloc: Global, text: &str) -> Result<Asked, LineErr>
    ensures { AsksText result (asks_text text.now) }
{
    match text.split_once(' ') {
        Some((word, rest)) => {
            if word == "head" {
                return head_of(alloc, rest);
            }
            match number_of(word) {
                Some(number) => session_of(alloc, number, rest),
                None => Err(LineErr::Line),
            }
        }
        None => Err(LineErr::Line),
    }
}

/// Reads a line by the grammar; `None` is the empty line.
pub fn asked_of(alloc: Global, line: &[u8]) -> Result<Option<Asked>, LineErr>
    ensures { AsksAs line.now result }
{
    if line.is_empty() {
        return Ok(None);
    }
    match str::from_utf8(line) {
        Ok(text) => {
            let asked = asked_of_text(alloc, text)?;
            Ok(Some(asked))
        }
        Err(_) => Err(LineErr::Line),
    }
}
