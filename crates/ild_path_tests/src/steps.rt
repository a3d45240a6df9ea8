//! What is told of the steps along a path in a block, and the block that a splice at their end makes.
use crate::seen::{path_of, view_of};
use ild_cbor::{Node, check};
use ild_compile::compile;
use ild_data::Path;
use ild_path_holder::{last_holder, part_steps, steps_along};
use ild_path_replaced::{Touch, node_along, replaced};
use ild_path_steps::PartSteps;
use ild_schema::Accepted;
use ild_splice::replace;
use ild_view::View;
use std::alloc::{AllocError, Global};
use std::process::Abort;
use std::test::Fail;

/// The spelling of 5, which takes the place of a part.
const FIVE: &[u8] = b"\x05";

/// A declared type, a block of it, a path, the steps along it as a text, and the block in which the part at the path is 5. Where a
/// holder is replaced, the text ends with its number, and there is no block.
pub type Row = (
    &'static str,
    &'static [u8],
    &'static [&'static str],
    &'static str,
    &'static [u8],
);

fn add(text: &mut String, steps: &PartSteps<'_>) -> Result<(), AllocError> {
    match steps {
        PartSteps::Whole => text.push_str("whole "),
        PartSteps::Same => text.push_str("same "),
        PartSteps::Item(i) => text.push_str(if *i == 0 { "item0 " } else { "item1 " }),
        PartSteps::Pair(i) => text.push_str(if *i == 0 { "pair0 " } else { "pair1 " }),
        PartSteps::Entry(key) => {
            text.push_str(key)?;
            text.push_str(" ")
        }
        PartSteps::Beside(key) => {
            text.push_str("beside-")?;
            text.push_str(key)?;
            text.push_str(" ")
        }
    }
}

/// The steps along a path, and then from its last holder to the part at its last segment.
fn steps_to_part<'a>(
    alloc: Global,
    root: &View<'a>,
    path: &'a Path,
    last: &'a str,
) -> Option<Vec<PartSteps<'a>>> {
    let above = last_holder(alloc, root, path).ok()??;
    let mut steps = steps_along(alloc, root, path).ok()??;
    steps.push(part_steps(&above.view, last)?).ok()?;
    Some(steps)
}

/// The steps as a text, and the number of the holder that is replaced.
fn text_of(alloc: Global, steps: &[PartSteps<'_>], whole: Option<usize>) -> Option<String> {
    let mut text = String::new(alloc);
    for step in steps {
        add(&mut text, step).ok()?;
    }
    match whole {
        Some(0) => text.push_str("0").ok()?,
        Some(_) => text.push_str("1").ok()?,
        None => {}
    }
    Some(text)
}

/// Whether the block with 5 in the place of the part to which steps lead is this.
fn is_made(alloc: Global, root: Node<'_>, steps: &[PartSteps<'_>], want: &[u8]) -> Option<bool> {
    let part = node_along(root, steps)?;
    let new = check(FIVE).ok()?;
    let block = replace(alloc, &part, &new).ok()?;
    Some(block.as_slice() == want)
}

fn is_so(alloc: Global, acc: &Accepted, row: &Row) -> Option<bool> {
    let (name, block, segments, text, want) = *row;
    let [.., last] = segments else {
        return None;
    };
    let root = check(block).ok()?;
    let view = view_of(alloc, acc, name, root)?;
    let path = path_of(alloc, segments)?;
    let steps = steps_to_part(alloc, &view, &path, last)?;
    let whole = replaced(&steps, Touch::Whole);
    let said = text_of(alloc, &steps, whole)?;
    let made = whole.is_some() || is_made(alloc, root, &steps, want)?;
    Some(made && said.as_str() == text)
}

/// Each row of a table is so, under a schema.
pub(crate) fn all_so(rt: &impl Abort, alloc: Global, src: &str, table: &[Row]) -> Result<(), Fail> {
    let acc = compile(alloc, src.as_bytes()).ok().ok_or("a schema")?;
    for row in table {
        assert!(rt;
            is_so(alloc, &acc, row).ok_or("steps")?,
            "{} {:?}",
            row.0,
            row.1
        );
    }
    Ok(())
}
