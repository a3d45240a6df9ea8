//! What is told of an edit at a path of a block.
use crate::seen::{path_of, view_of};
use ild_cbor::check;
use ild_compile::compile;
use ild_path_block::{PartEdit, Spliced, spliced};
use ild_schema::Accepted;
use std::alloc::Global;
use std::process::Abort;
use std::test::Fail;

/// A declared type, a block of it, a path, what is done (`set`, `ins` or `del`), and with which item; then what is told: `block` with the
/// new block, the number of the holder that is replaced with its item, or `none`.
pub type Row = (
    &'static str,
    &'static [u8],
    &'static [&'static str],
    (&'static str, &'static [u8]),
    (&'static str, &'static [u8]),
);

fn edit_of<'n>(verb: &str, new: &'n [u8]) -> Option<PartEdit<'n>> {
    match verb {
        "set" => Some(PartEdit::Set(check(new).ok()?)),
        "ins" => Some(PartEdit::Insert(check(new).ok()?)),
        _ => Some(PartEdit::Delete),
    }
}

fn number(holder: usize) -> &'static str {
    match holder {
        0 => "0",
        1 => "1",
        _ => "more",
    }
}

fn is_told(answer: &Option<Spliced<'_>>, told: &str, want: &[u8]) -> bool {
    match answer {
        Some(Spliced::Block(block)) => told == "block" && block.as_slice() == want,
        Some(Spliced::Holder(r)) => told == number(r.holder) && r.item.spelling() == want,
        None => told == "none",
    }
}

fn is_so(alloc: Global, acc: &Accepted, row: &Row) -> Option<bool> {
    let (name, block, segments, (verb, new), (told, want)) = *row;
    let view = view_of(alloc, acc, name, check(block).ok()?)?;
    let path = path_of(alloc, segments)?;
    let edit = edit_of(verb, new)?;
    let answer = spliced(alloc, &view, &path, &edit).ok()?;
    Some(is_told(&answer, told, want))
}

/// Each row of a table is so, under a schema.
pub(crate) fn all_so(rt: &impl Abort, alloc: Global, src: &str, table: &[Row]) -> Result<(), Fail> {
    let acc = compile(alloc, src.as_bytes()).ok().ok_or("a schema")?;
    for row in table {
        assert!(rt;
            is_so(alloc, &acc, row).ok_or("an edit")?,
            "{} {:?}",
            row.0,
            row.1
        );
    }
    Ok(())
}
