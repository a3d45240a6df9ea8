//! Views of blocks, and paths, of which the tests tell something.
use ild_cbor::Node;
use ild_data::{Path, Txt};
use ild_schema::{Accepted, Slot};
use ild_view::View;
use std::alloc::Global;

/// The view of an item as a value of a declared type.
pub(crate) fn view_of<'b>(
    alloc: Global,
    acc: &'b Accepted,
    name: &str,
    root: Node<'b>,
) -> Option<View<'b>> {
    let ty = acc.type_named(name)?;
    if ty.0 >= acc.types() {
        return None;
    }
    let slot = Slot {
        ty,
        nullable: false,
    };
    View::check(alloc, acc, slot, root, 96).ok()
}

/// The path of some segments.
pub(crate) fn path_of(alloc: Global, segments: &[&str]) -> Option<Path> {
    let mut path = Path::new(alloc);
    for segment in segments {
        path.push(Txt::of(alloc, segment).ok()?).ok()?;
    }
    Some(path)
}
