//! What lines read as, shown as texts.
use ild_data::Txt;
use ild_heads::Event;
use ild_heads_lines::{Asked, asked_of};
use ild_script::LineErr;
use std::alloc::{AllocError, Global};

fn event_text(alloc: Global, event: &Event) -> Result<String, AllocError> {
    match event {
        Event::Head(name, root) => format!(in alloc; "head [{}] {}", name.as_str(), root.0[0]),
        Event::Begin(number, name) => format!(in alloc; "begin {number} [{}]", name.as_str()),
        Event::Line(number, line) => format!(in alloc; "line {number} {}", line.as_slice().len()),
        Event::Commit(number) => format!(in alloc; "commit {number}"),
        Event::Replay(number) => format!(in alloc; "replay {number}"),
        Event::Abort(number) => format!(in alloc; "abort {number}"),
    }
}

fn empty_text(alloc: Global, name: &Txt) -> Result<String, AllocError> {
    format!(in alloc; "empty [{}]", name.as_str())
}

/// What a line reads as.
pub(crate) fn shown(alloc: Global, line: &str) -> Result<String, AllocError> {
    match asked_of(alloc, line.as_bytes()) {
        Ok(Some(Asked::Empty(name))) => empty_text(alloc, &name),
        Ok(Some(Asked::Event(event))) => event_text(alloc, &event),
        Ok(None) => String::from_str(alloc, "blank"),
        Err(LineErr::Line) => String::from_str(alloc, "outside"),
        Err(LineErr::Memory) => Err(AllocError),
    }
}
