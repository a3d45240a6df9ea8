//! A HAMT in the entry of another one, with an entry of another type in a node beneath it: what is refused is that node's block.
use crate::told::{doc_of, fault_of, told};
use hex::{decode, encode};
use ild_cbor::BlockWhy;
use ild_compile::compile;
use ild_data::{BlockId, PadKeys, block_id};
use ild_edges::MemStore;
use ild_path::PathFault;
use ild_schema::Accepted;
use ild_view_doc::Doc;
use std::alloc::Global;
use std::test::Fail;

const SRC: &str =
    "type L [Int] type H {String:L} representation advanced HAMT type O {String:H} representation advanced HAMT";

/// The root block before the CID of the node, and behind it: an outer HAMT with one entry, at aa, whose value is the root of a HAMT with one
/// child.
const FRONT: &str =
    "a36468616d748258200000000000000000000000000200000000000000000000000000000000000000818182426161a36468616d74825820000000000000000000000000040000000000000000000000000000000000000081d82a582500";

const BACK: &str =
    "6768617368416c67126a6275636b657453697a65036768617368416c67126a6275636b657453697a6503";

/// The node: a text at bb, where a list has to stand, and empty lists at bc, bd and be.
const NODE: &str =
    "8258200000000000000000000000003c000000000000000000000000000000000000008481824262626178818242626380818242626480818242626580";

/// Whether a fault names this block, as one that isn't what has to stand there.
fn is_named(fault: PathFault, node: &[u8]) -> bool {
    match fault {
        PathFault::Block { id, why } => id == block_id(node) && matches!(why, BlockWhy::Shape(_)),
        _ => false,
    }
}

/// The root block over a node, as a document.
fn root_over<'s>(alloc: Global, acc: &'s Accepted, node: &BlockId) -> Option<Doc<'s>> {
    let cid = encode(alloc, node.cid()).ok()?;
    let root = format!(in alloc; "{FRONT}{cid}{BACK}").ok()?;
    doc_of(alloc, acc, "O", root.as_str())
}

/// Whether an edit is refused for the node.
fn is_refused(alloc: Global, asked: &str) -> Option<bool> {
    let acc = compile(alloc, SRC.as_bytes()).ok()?;
    let node = decode(alloc, NODE).ok()?;
    let mut store = MemStore::new(alloc, &[], &[]).ok()?;
    store.add(&node).ok()?;
    let mut doc = root_over(alloc, &acc, &block_id(&node))?;
    let fault = fault_of(alloc, &doc, asked, &mut store)?;
    let text = told(alloc, &mut doc, asked, &PadKeys, &mut store)?;
    Some(is_named(fault, &node) && text.as_slice() == b"no 11 block\n".as_slice())
}

#[test]
fn an_entry_of_another_type(rt: HostRuntime) -> Result<(), Fail> {
    if is_refused(rt.alloc(), "set /aa/bb/0 5") != Some(true) {
        return Err("an entry".into());
    }
    Ok(())
}
