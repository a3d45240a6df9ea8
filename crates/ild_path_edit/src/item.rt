//! The item of what a holder on the path of an edit becomes.
ghost use Rattle.std.specs.Prelude.{◌<◌, length};
ghost use Rattle.ild_path_edit.specs.inside.Items.{ChangesHolder, MakesHolder, SetsPart};

use crate::views::{are_texts, holders};
use ild_cbor::check;
use ild_data::{Octets, Path, Txt};
use ild_path_block::PartEdit;
use ild_path_item::new_item;
use ild_splice::SpliceErr;
use ild_view::View;
use std::alloc::Global;

// The item of what the holder with a number becomes by an edit of the part at its segment.
fn changed(
    alloc: Global,
    views: &[View<'_>],
    segments: &[Txt],
    k: usize,
    edit: &PartEdit<'_>,
) -> Result<Octets, SpliceErr>
    requires { k < length segments.now }
    ensures { ChangesHolder views.now segments.now k edit.now result }
{
    if k < views.len() {
        match new_item(alloc, &views[k], segments[k].as_str(), edit)? {
            Some(item) => Ok(item),
            None => Err(SpliceErr::Memory),
        }
    } else {
        Err(SpliceErr::Memory)
    }
}

// The same, where the part becomes what the item of a block stands for. Only what nests deeper than a block may is no block.
fn above(
    alloc: Global,
    views: &[View<'_>],
    segments: &[Txt],
    k: usize,
    part: &Octets,
) -> Result<Octets, SpliceErr>
    requires { k < length segments.now }
    ensures { SetsPart views.now segments.now k part.now result }
{
    match check(part.as_slice()) {
        Ok(node) => changed(alloc, views, segments, k, &PartEdit::Set(node)),
        Err(_) => Err(SpliceErr::Memory),
    }
}

/// The item of what an edit at a path makes of the holder to which so many segments lead.
pub(crate) fn item_at<'a>(
    alloc: Global,
    root: &View<'a>,
    path: &'a Path,
    edit: &PartEdit<'_>,
    from: usize,
) -> Result<Octets, SpliceErr>
    requires { 0 < length path.now }
    ensures { MakesHolder root.now path.now edit.now from result }
{
    // They do no work: their clauses say what acceptance says of the table, and that segments are texts.
    root.schema().recall();
    are_texts(path);
    let views = holders(alloc, root, path)?;
    let segments = path.as_slice();
    let mut k = segments.len() - 1;
    let mut item = changed(alloc, &views, segments, k, edit)?;
    while from < k {
        k -= 1;
        item = above(alloc, &views, segments, k, &item)?;
    }
    Ok(item)
}
