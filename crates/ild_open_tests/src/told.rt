//! What opening a root block tells.
use ild_data::{PadKeys, block_id};
use ild_edges::MemStore;
use ild_open::{OpenFault, open_root};
use ild_schema::Accepted;
use std::alloc::Global;

/// What is told of a root block of a type, in a word. The root block is added to the store.
pub(crate) fn told(
    alloc: Global,
    acc: &Accepted,
    name: &str,
    root: &[u8],
    store: &mut MemStore,
) -> Option<&'static str> {
    let ty = acc.type_named(name)?;
    if ty.0 >= acc.types() {
        return None;
    }
    store.add(root).ok()?;
    match open_root(alloc, acc, ty, &block_id(root), &PadKeys, store) {
        Ok(_) => Some("open"),
        Err(OpenFault::Block { .. }) => Some("block"),
        Err(OpenFault::Store) => Some("store"),
        Err(OpenFault::Memory) => Some("memory"),
    }
}
