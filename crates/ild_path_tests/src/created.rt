//! A value with HAMTs three deep that is created, where each put fails in turn. Its blocks and its root are those of tests/paths/rows.py.
use crate::forest::{COUNT, ROOT, SRC, node, whole};
use hex::decode;
use ild_compile::compile;
use ild_data::{BlockId, NamedBlock, Octets, PadKeys};
use ild_edges::{MemStore, Store};
use ild_run_create::{CreateFault, create};
use ild_schema::Accepted;
use ild_script::{Reply, reply_text};
use std::alloc::Global;
use std::test::Fail;

/// More puts than the value has blocks.
const MANY: u64 = 100;

/// The blocks of the value.
fn blocks_of(alloc: Global) -> Option<Vec<NamedBlock>> {
    let mut blocks = Vec::new(alloc);
    let root = Octets::from_vec(decode(alloc, ROOT).ok()?);
    blocks.push(NamedBlock::of(root)).ok()?;
    for i in 0..COUNT {
        let node = Octets::from_vec(node(alloc, i)?);
        blocks.push(NamedBlock::of(node)).ok()?;
    }
    Some(blocks)
}

/// Whether an id stands in a block.
fn is_in(id: &BlockId, block: &[u8]) -> bool {
    for at in 0..block.len() {
        if block[at..].starts_with(&id.0) {
            return true;
        }
    }
    false
}

/// The ids of each block and each child of it.
fn links_of(alloc: Global, blocks: &[NamedBlock]) -> Option<Vec<(BlockId, BlockId)>> {
    let mut links = Vec::new(alloc);
    for block in blocks {
        for child in blocks {
            if is_in(&child.id(), block.block().as_slice()) {
                links.push((block.id(), child.id())).ok()?;
            }
        }
    }
    Some(links)
}

fn is_held(store: &mut MemStore, id: &BlockId) -> bool {
    matches!(store.get(id), Ok(Some(_)))
}

/// Whether each block that is held has its children held.
fn have_children(links: &[(BlockId, BlockId)], store: &mut MemStore) -> bool {
    for (block, child) in links {
        if is_held(store, block) && !is_held(store, child) {
            return false;
        }
    }
    true
}

/// Whether all blocks of the value are held.
fn are_held(links: &[(BlockId, BlockId)], store: &mut MemStore) -> bool {
    for (block, child) in links {
        if !is_held(store, block) || !is_held(store, child) {
            return false;
        }
    }
    true
}

/// Whether the value is created under its root, or isn't since the store failed; `None` where it is neither.
fn is_made(alloc: Global, acc: &Accepted, store: &mut MemStore) -> Option<bool> {
    let (json, wanted) = whole()?;
    let ty = acc.type_named("Forest")?;
    if ty.0 >= acc.types() {
        return None;
    }
    match create(alloc, acc, ty, json.as_bytes(), &PadKeys, store) {
        Ok(id) => {
            let text = reply_text(alloc, &Reply::Root(id)).ok()?;
            if text.as_slice() == wanted.as_bytes() {
                return Some(true);
            }
            None
        }
        Err(CreateFault::Store) => Some(false),
        Err(_) => None,
    }
}

/// Whether the put with a number fails and leaves the children of each block that came, and the value is then made over the same store; or
/// there is no such put.
fn stops_at(
    alloc: Global,
    acc: &Accepted,
    links: &[(BlockId, BlockId)],
    number: u64,
) -> Option<bool> {
    let mut store = MemStore::new(alloc, &[], &[number]).ok()?;
    if is_made(alloc, acc, &mut store)? {
        if are_held(links, &mut store) {
            return Some(false);
        }
        return None;
    }
    if have_children(links, &mut store)
        && !are_held(links, &mut store)
        && is_made(alloc, acc, &mut store)?
        && are_held(links, &mut store)
    {
        return Some(true);
    }
    None
}

/// How many puts the value has, each of which is let fail in turn.
fn puts_of(alloc: Global, links: &[(BlockId, BlockId)]) -> Option<u64> {
    let acc = compile(alloc, SRC.as_bytes()).ok()?;
    for before in 0..MANY {
        if !stops_at(alloc, &acc, links, before.saturating_add(1))? {
            return Some(before);
        }
    }
    None
}

#[test]
fn each_put_fails_in_turn(rt: HostRuntime) -> Result<(), Fail> {
    let blocks = blocks_of(rt.alloc()).ok_or("blocks")?;
    let links = links_of(rt.alloc(), &blocks).ok_or("links")?;
    assert!(rt; links.len() >= COUNT);
    let puts = puts_of(rt.alloc(), &links).ok_or("a put that fails")?;
    assert!(rt; puts >= blocks.len() as u64);
    Ok(())
}
