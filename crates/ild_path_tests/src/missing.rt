//! Each node beneath a value missing in turn: an edit is refused for one that is on its way, and done where another is missing. Which nodes are on
//! the way is told by tests/paths/rows.py.
use crate::forest::{COUNT, ROOT, SRC, node, store_without};
use crate::told::{doc_of, fault_of, is_told, told};
use ild_cbor::BlockWhy;
use ild_compile::compile;
use ild_data::{PadKeys, block_id};
use ild_edges::MemStore;
use ild_path::PathFault;
use ild_schema::Accepted;
use ild_view_doc::Doc;
use std::alloc::Global;
use std::test::Fail;

const INSERT: &str =
    "ins /1/Twigs/aa4/xx4/- {\"Leaf\":3} => root bafyreide3z5kwk4zsdx5b4zqz2kq5grwqecyalgyd7cc6wptd2ky54gsee\n";

const ON_THE_WAY: [usize; 4] = [10, 11, 12, 13];

/// Whether a fault names this block as one that is missing.
fn is_named(fault: PathFault, block: &[u8]) -> bool {
    match fault {
        PathFault::Block { id, why } => id == block_id(block) && why == BlockWhy::Missing,
        _ => false,
    }
}

/// Whether an edit is refused for a node that is missing, and leaves the document.
fn is_refused(
    alloc: Global,
    doc: &mut Doc<'_>,
    number: usize,
    store: &mut MemStore,
) -> Option<bool> {
    let (asked, _) = INSERT.split_once(" => ")?;
    let named = is_named(fault_of(alloc, doc, asked, store)?, &node(alloc, number)?);
    let root = doc.root();
    let text = told(alloc, doc, asked, &PadKeys, store)?;
    Some(named && text.as_slice() == b"no 11 block\n".as_slice() && doc.root() == root)
}

/// Whether an edit is told as it has to be where a node is missing.
fn is_so(alloc: Global, acc: &Accepted, number: usize) -> Option<bool> {
    let mut store = store_without(alloc, number, &[], &[])?;
    let mut doc = doc_of(alloc, acc, "Forest", ROOT)?;
    if ON_THE_WAY.contains(&number) {
        is_refused(alloc, &mut doc, number, &mut store)
    } else {
        is_told(alloc, &mut doc, INSERT, &PadKeys, &mut store)
    }
}

fn all_so(alloc: Global) -> Option<bool> {
    let acc = compile(alloc, SRC.as_bytes()).ok()?;
    for number in 0..COUNT {
        if !is_so(alloc, &acc, number)? {
            return None;
        }
    }
    Some(true)
}

#[test]
fn each_node_is_missing_in_turn(rt: HostRuntime) -> Result<(), Fail> {
    if all_so(rt.alloc()) != Some(true) {
        return Err("a node".into());
    }
    Ok(())
}
