//! What a view shows of a value, and where paths lead in it. What is wanted is a word, and behind it what is told: `null`, `bool true`, `int -5`,
//! `text hi`, `bytes 01ff`, `link` and the bytes of a CID, `enum` and the name of a member, `union` and the name of the member that it holds, `parts` and
//! how many there are, `hamt`, `unit`; of a path `enter` with the number of the segment that is a key of a HAMT, and `nowhere` with the one that leads nowhere.
use hex::encode;
use ild_cbor::{Node, check};
use ild_data::Path;
use ild_schema::{Accepted, Slot};
use ild_script::line_of;
use ild_view::{Step, View};
use std::alloc::Global;

/// How many of its accessors tell something of a view, and whether it is null.
fn told_scalars(view: &View<'_>) -> u8 {
    u8::from(view.is_null())
        + u8::from(view.boolean().is_some())
        + u8::from(view.int().is_some())
        + u8::from(view.text().is_some())
        + u8::from(view.bytes().is_some())
        + u8::from(view.link().is_some())
}

fn told_others(view: &View<'_>) -> u8 {
    u8::from(view.enum_name().is_some())
        + u8::from(view.member().is_some())
        + u8::from(view.len().is_some())
        + u8::from(view.hamt().is_some())
}

/// Whether these bytes are written so.
fn are_written(alloc: Global, bytes: &[u8], want: &str) -> Option<bool> {
    Some(encode(alloc, bytes).ok()?.as_str() == want)
}

fn shows_scalar(alloc: Global, view: &View<'_>, word: &str, want: &str) -> Option<bool> {
    match word {
        "null" => Some(view.is_null()),
        "bool" => Some(view.boolean()? == (want == "true")),
        "int" => Some(view.int()?.get() == i128::from(want.parse::<i64>().ok()?)),
        "text" => Some(view.text()? == want),
        "bytes" => are_written(alloc, view.bytes()?, want),
        "link" => are_written(alloc, view.link()?.whole(), want),
        _ => None,
    }
}

fn shows_other(view: &View<'_>, word: &str, want: &str) -> Option<bool> {
    match word {
        "enum" => Some(view.enum_name()? == want),
        "union" => Some(view.member()?.0 == want),
        "parts" => Some(view.len()? == want.parse::<u64>().ok()?),
        "hamt" => Some(view.hamt().is_some()),
        _ => None,
    }
}

/// Whether a view shows this, and nothing else.
pub(crate) fn shows(alloc: Global, view: &View<'_>, want: &str) -> Option<bool> {
    let (word, rest) = want.split_once(' ').unwrap_or((want, ""));
    match (told_scalars(view), told_others(view)) {
        (0, 0) => Some(word == "unit"),
        (1, 0) => shows_scalar(alloc, view, word, rest),
        (0, 1) => shows_other(view, word, rest),
        _ => None,
    }
}

/// Whether there is a view, and it shows this.
pub(crate) fn is_shown(alloc: Global, found: Option<View<'_>>, want: &str) -> Option<bool> {
    shows(alloc, &found?, want)
}

/// The view of a block as a value of a declared type.
pub(crate) fn view_of<'b>(
    alloc: Global,
    acc: &'b Accepted,
    name: &str,
    block: &'b [u8],
) -> Option<View<'b>> {
    let ty = acc.type_named(name)?;
    let slot = Slot {
        ty,
        nullable: false,
    };
    if ty.0 >= acc.types() {
        return None;
    }
    let root: Node<'b> = check(block).ok()?;
    View::check(alloc, acc, slot, root, 96).ok()
}

/// The path that a text writes, as a line of a script has it.
pub(crate) fn path_of(alloc: Global, text: &str) -> Option<Path> {
    let line = format!(in alloc; "get {text}").ok()?;
    Some(line_of(alloc, line.as_bytes()).ok()??.path)
}

/// Whether this stands where a path leads.
pub(crate) fn leads(alloc: Global, view: &View<'_>, path: &Path, want: &str) -> Option<bool> {
    let (word, number) = want.split_once(' ').unwrap_or((want, ""));
    match view.at(path, 0) {
        Ok(Step::Here(part)) => shows(alloc, &part, want),
        Ok(Step::Enter(_, k)) => Some(word == "enter" && k as u64 == number.parse::<u64>().ok()?),
        Err(none) => Some(word == "nowhere" && none.k as u64 == number.parse::<u64>().ok()?),
    }
}
