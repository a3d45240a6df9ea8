//! A HAMT whose one child has a bit turned over and stands under the id that it has so, to which its root links: an edit is refused for that
//! id, or the child is a node with the change as well. The blocks are those of tests/paths/rows.py.
use crate::told::{doc_of, fault_of, is_told, told};
use hex::{decode, encode};
use ild_cbor::BlockWhy;
use ild_compile::compile;
use ild_data::{BlockId, PadKeys, block_id};
use ild_edges::MemStore;
use ild_path::PathFault;
use ild_schema::Accepted;
use ild_view_doc::Doc;
use std::alloc::Global;
use std::test::Fail;

const SRC: &str = "type H {String:Int} representation advanced HAMT";

/// The root block before the CID of its child, and behind it.
const FRONT: &str =
    "a36468616d74825820000000000000000000000000020000000000000000000000000000000000000081d82a582500";

const BACK: &str = "6768617368416c67126a6275636b657453697a6503";

const CHILD: &str =
    "8258200000000000001e0000000000000000000000000000000000000000000000000084818242613101818242613202818242613303818242613404";

/// An edit of the last entry, with its reply over the child as it is.
const SET_LAST: &str =
    "set /a4 5 => root bafyreigllythbjubjbwbfwujsomt6zsdccrr5uatnnoyxyaakwq4f73mbe\n";

/// The root block over a child, as a document.
fn root_over<'s>(alloc: Global, acc: &'s Accepted, child: &BlockId) -> Option<Doc<'s>> {
    let cid = encode(alloc, child.cid()).ok()?;
    let root = format!(in alloc; "{FRONT}{cid}{BACK}").ok()?;
    doc_of(alloc, acc, "H", root.as_str())
}

/// The child with a bit turned over; as it is where there is no such byte.
fn turned(alloc: Global, at: usize, bit: u32) -> Option<Vec<u8>> {
    let mut child = decode(alloc, CHILD).ok()?;
    if let Some(byte) = child.get_mut(at) {
        *byte ^= 1u8.wrapping_shl(bit);
    }
    Some(child)
}

/// Whether a fault names this block, and not as one that is missing.
fn is_named(fault: PathFault, child: &[u8]) -> bool {
    match fault {
        PathFault::Block { id, why } => id == block_id(child) && why != BlockWhy::Missing,
        _ => false,
    }
}

/// Whether an edit of a document over a child is done, or is refused for the child.
fn is_done(alloc: Global, doc: &mut Doc<'_>, child: &[u8], store: &mut MemStore) -> Option<bool> {
    let (asked, _) = SET_LAST.split_once(" => ")?;
    let fault = fault_of(alloc, doc, asked, store);
    let text = told(alloc, doc, asked, &PadKeys, store)?;
    let refused = text.as_slice() == b"no 11 block\n".as_slice();
    match fault {
        None if !refused => Some(true),
        Some(fault) if refused && is_named(fault, child) => Some(false),
        _ => None,
    }
}

/// The same over the child with a bit turned over. Where the path is followed the edit is done.
fn is_done_over(alloc: Global, acc: &Accepted, at: usize, bit: u32) -> Option<bool> {
    let child = turned(alloc, at, bit)?;
    let mut store = MemStore::new(alloc, &[], &[]).ok()?;
    store.add(&child).ok()?;
    let mut doc = root_over(alloc, acc, &block_id(&child))?;
    is_done(alloc, &mut doc, &child, &mut store)
}

/// Each bit in turn: the edit is done, or refused for the child.
fn each_bit(alloc: Global, acc: &Accepted) -> Option<bool> {
    for at in 0..CHILD.len() / 2 {
        for bit in 0..8 {
            is_done_over(alloc, acc, at, bit)?;
        }
    }
    Some(true)
}

/// A list of three items, a map of 31 bytes, and a bit more than there are elements, are no nodes.
fn are_refused(alloc: Global, acc: &Accepted) -> Option<bool> {
    let first = is_done_over(alloc, acc, 0, 0)? || is_done_over(alloc, acc, 2, 0)?;
    Some(!first && !is_done_over(alloc, acc, 3, 0)?)
}

/// The child as it is.
fn is_set(alloc: Global, acc: &Accepted) -> Option<bool> {
    let child = decode(alloc, CHILD).ok()?;
    let mut store = MemStore::new(alloc, &[], &[]).ok()?;
    store.add(&child).ok()?;
    let mut doc = root_over(alloc, acc, &block_id(&child))?;
    is_told(alloc, &mut doc, SET_LAST, &PadKeys, &mut store)
}

fn all_so(alloc: Global) -> Option<bool> {
    let acc = compile(alloc, SRC.as_bytes()).ok()?;
    Some(is_set(alloc, &acc)? && are_refused(alloc, &acc)? && each_bit(alloc, &acc)?)
}

#[test]
fn each_bit_of_the_child(rt: HostRuntime) -> Result<(), Fail> {
    if all_so(rt.alloc()) != Some(true) {
        return Err("a child".into());
    }
    Ok(())
}
