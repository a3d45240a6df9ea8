//! Walks over whole HAMTs, those that stand and those that don't.
use ild_bulk::from_entries;
use ild_bulk_walker::{Walker, check_tree};
use ild_cbor::{BlockWhy, Why, check};
use ild_data::{HamtShape, KeyHash, PadKeys, Sha256Keys, block_id};
use ild_edges::MemStore;
use ild_hamt_samples::{CHILD_OF_FOUR, FOUR, ROOT_OF_FOUR, TWO_CHILDREN, built, pseudo_random};
use ild_node::{HamtFault, node_of};
use std::alloc::Global;
use std::test::Fail;

/// How many entries stand beneath a root, or why it isn't the root of a HAMT.
fn counted<H: KeyHash>(
    alloc: Global,
    root: &[u8],
    keys: &H,
    store: &mut MemStore,
) -> Result<Result<u64, HamtFault>, Fail> {
    let node = check(root).ok().ok_or("a block")?;
    let view = node_of(node, HamtShape::usual()).ok().ok_or("a node")?;
    Ok(check_tree(alloc, view, block_id(root), keys, store))
}

/// The key and the value of the next entry, of which each is short.
fn next_of(walker: &mut Walker, store: &mut MemStore) -> Result<Option<(u8, u8)>, Fail> {
    match walker.next(&PadKeys, store).ok().ok_or("a step")? {
        Some(row) => match (row.key.as_str().as_bytes(), row.value.as_slice()) {
            ([_, key], [value]) => Ok(Some((*key, *value))),
            _ => Err("a short entry".into()),
        },
        None => Ok(None),
    }
}

#[test]
fn four_entries(rt: HostRuntime) -> Result<(), Fail> {
    let mut store = MemStore::new(rt.alloc(), &[], &[])?;
    store.add(CHILD_OF_FOUR)?;
    let node = check(ROOT_OF_FOUR).ok().ok_or("a block")?;
    let view = node_of(node, HamtShape::usual()).ok().ok_or("a node")?;
    let mut walker = Walker::new(rt.alloc(), view, block_id(ROOT_OF_FOUR))?;
    for n in 1..5u8 {
        assert_eq!(rt; next_of(&mut walker, &mut store)?, Some((n, n)));
    }
    assert_eq!(rt; next_of(&mut walker, &mut store)?, None);
    Ok(())
}

#[test]
fn counts(rt: HostRuntime) -> Result<(), Fail> {
    let mut store = MemStore::new(rt.alloc(), &[], &[])?;
    let root = built(
        rt.alloc(),
        HamtShape::usual(),
        &TWO_CHILDREN,
        &PadKeys,
        &mut store,
    )?;
    let count = counted(rt.alloc(), root.as_slice(), &PadKeys, &mut store)?;
    assert_eq!(rt; count.ok(), Some(8));
    let rows = pseudo_random(rt.alloc(), 1000)?;
    let root = from_entries(
        rt.alloc(),
        HamtShape::usual(),
        &rows,
        &Sha256Keys,
        &mut store,
    )
    .ok()
    .ok_or("a root")?;
    let count = counted(rt.alloc(), root.as_slice(), &Sha256Keys, &mut store)?;
    assert_eq!(rt; count.ok(), Some(1000));
    Ok(())
}

/// Whether a walk beneath the root of four is refused for this cause, at the root or at its child.
fn is_refused<H: KeyHash>(
    alloc: Global,
    keys: &H,
    store: &mut MemStore,
    at: &[u8],
    why: BlockWhy,
) -> Result<bool, Fail> {
    Ok(match counted(alloc, ROOT_OF_FOUR, keys, store)? {
        Err(HamtFault::Block { id, why: found }) => id == block_id(at) && found == why,
        _ => false,
    })
}

#[test]
fn refusals(rt: HostRuntime) -> Result<(), Fail> {
    let mut store = MemStore::new(rt.alloc(), &[], &[])?;
    let missing = BlockWhy::Missing;
    assert_eq!(rt;
        is_refused(rt.alloc(), &PadKeys, &mut store, CHILD_OF_FOUR, missing)?,
        true
    );
    store.add(CHILD_OF_FOUR)?;
    let shape = BlockWhy::Shape(Why::Trie);
    assert_eq!(rt;
        is_refused(rt.alloc(), &Sha256Keys, &mut store, CHILD_OF_FOUR, shape)?,
        true
    );
    Ok(())
}
