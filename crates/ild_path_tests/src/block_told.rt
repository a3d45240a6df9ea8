//! What is told of an edit at a path of a block.
use crate::seen::view_of;
use hex::decode;
use ild_cbor::check;
use ild_compile::compile;
use ild_path_block::PartEdit;
use ild_path_delimiter::{TextEdit, breaks_delimiter};
use ild_path_edit::block_of_edit;
use ild_schema::Accepted;
use ild_script::{Line, Word, line_of};
use ild_view::View;
use std::alloc::Global;

fn edit_of<'n>(verb: Word, item: &'n [u8]) -> Option<PartEdit<'n>> {
    match verb {
        Word::Set => Some(PartEdit::Set(check(item).ok()?)),
        Word::Ins => Some(PartEdit::Insert(check(item).ok()?)),
        _ => Some(PartEdit::Delete),
    }
}

fn text_edit<'n>(edit: &PartEdit<'n>) -> Option<TextEdit<'n>> {
    match edit {
        PartEdit::Set(new) => Some(TextEdit::Set(new.text()?)),
        PartEdit::Insert(new) => Some(TextEdit::Insert(new.text()?)),
        PartEdit::Delete => Some(TextEdit::Delete),
    }
}

/// Whether an edit breaks a delimiter rule; one of a part that is no text breaks none.
fn is_broken(alloc: Global, view: &View<'_>, line: &Line, edit: &PartEdit<'_>) -> Option<bool> {
    match text_edit(edit) {
        Some(edit) => breaks_delimiter(alloc, view, &line.path, edit).ok(),
        None => Some(false),
    }
}

/// Whether an edit of a view is told so: the new block, in hexadecimals, or `delimiter`.
fn is_told(alloc: Global, view: &View<'_>, asked: &str, want: &str) -> Option<bool> {
    let line = line_of(alloc, asked.as_bytes()).ok()??;
    let item = decode(alloc, asked.as_bytes().get(line.json_at..)?).ok()?;
    let edit = edit_of(line.verb, &item)?;
    if is_broken(alloc, view, &line, &edit)? {
        return Some(want == "delimiter");
    }
    let changed = block_of_edit(alloc, view, &line.path, &edit).ok()?;
    Some(changed.as_slice() == decode(alloc, want).ok()?.as_slice())
}

/// Whether a row is so: a declared type, a block of it in hexadecimals, a line whose JSON is an item in hexadecimals, and behind ` => ` what is told.
fn is_so(alloc: Global, acc: &Accepted, row: &str) -> Option<bool> {
    let (given, want) = row.split_once(" => ")?;
    let (name, rest) = given.split_once(' ')?;
    let (block, asked) = rest.split_once(' ')?;
    let block = decode(alloc, block).ok()?;
    let view = view_of(alloc, acc, name, check(&block).ok()?)?;
    is_told(alloc, &view, asked, want)
}

/// The first row of a table that isn't so under a schema is an error.
pub(crate) fn all_so(alloc: Global, src: &str, rows: &[&'static str]) -> Result<(), &'static str> {
    let acc = compile(alloc, src.as_bytes()).ok().ok_or("a schema")?;
    for row in rows {
        if is_so(alloc, &acc, row) != Some(true) {
            return Err(*row);
        }
    }
    Ok(())
}
