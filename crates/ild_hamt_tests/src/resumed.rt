//! Walks that go on where they stood when a call was refused, and entries in the order of keys.
use ild_bulk::from_entries;
use ild_bulk_walker::{Row, Walker, walk};
use ild_cbor::check;
use ild_data::{HamtShape, PadKeys, Sha256Keys, block_id};
use ild_edges::MemStore;
use ild_hamt_samples::{CHILD_OF_FOUR, ROOT_OF_FOUR, TWO_CHILDREN, built, pseudo_random};
use ild_node::{HamtFault, node_of};
use std::alloc::Global;
use std::test::Fail;

/// How many entries a walk gives, and how often the store failed on the way.
fn given_and_faults(alloc: Global, root: &[u8], store: &mut MemStore) -> Result<(u32, u32), Fail> {
    let view = node_of(check(root).ok().ok_or("a block")?, HamtShape::usual())
        .ok()
        .ok_or("a node")?;
    let mut walker = Walker::new(alloc, view, block_id(root))?;
    let mut given: u32 = 0;
    let mut faults: u32 = 0;
    for _ in 0..1000 {
        match walker.next(&PadKeys, store) {
            Ok(Some(_)) => given = given.saturating_add(1),
            Ok(None) => return Ok((given, faults)),
            Err(HamtFault::Store) => faults = faults.saturating_add(1),
            Err(_) => return Err("another fault".into()),
        }
    }
    Err("an end".into())
}

#[test]
fn each_get_fails_in_turn(rt: HostRuntime) -> Result<(), Fail> {
    for (k, faults) in [(1, 1), (2, 1), (3, 0)] {
        let mut store = MemStore::new(rt.alloc(), &[k], &[])?;
        let root = built(
            rt.alloc(),
            HamtShape::usual(),
            &TWO_CHILDREN,
            &PadKeys,
            &mut store,
        )?;
        let ended = given_and_faults(rt.alloc(), root.as_slice(), &mut store)?;
        assert_eq!(rt; ended, (8, faults));
    }
    Ok(())
}

#[test]
fn a_child_comes_later(rt: HostRuntime) -> Result<(), Fail> {
    let mut store = MemStore::new(rt.alloc(), &[], &[])?;
    let view = node_of(
        check(ROOT_OF_FOUR).ok().ok_or("a block")?,
        HamtShape::usual(),
    )
    .ok()
    .ok_or("a node")?;
    let mut walker = Walker::new(rt.alloc(), view, block_id(ROOT_OF_FOUR))?;
    assert_eq!(rt; walker.next(&PadKeys, &mut store).is_err(), true);
    assert_eq!(rt; walker.next(&PadKeys, &mut store).is_err(), true);
    store.add(CHILD_OF_FOUR)?;
    match walker.next(&PadKeys, &mut store) {
        Ok(Some(row)) => {
            assert_eq!(rt; row.key.as_str(), "\0\x01");
            assert_eq!(rt; row.block, block_id(CHILD_OF_FOUR));
        }
        _ => return Err("an entry".into()),
    }
    assert_eq!(rt; walker.given(), 1);
    Ok(())
}

/// The rows beneath a root under the sha2-256.
fn listed(alloc: Global, root: &[u8], store: &mut MemStore) -> Result<Vec<Row>, Fail> {
    let view = node_of(check(root).ok().ok_or("a block")?, HamtShape::usual())
        .ok()
        .ok_or("a node")?;
    Ok(
        walk(alloc, view, block_id(root), &Sha256Keys, store)
            .ok()
            .ok_or("rows")?,
    )
}

#[test]
fn in_the_order_of_keys(rt: HostRuntime) -> Result<(), Fail> {
    let mut store = MemStore::new(rt.alloc(), &[], &[])?;
    let pairs = [
        ("", 1),
        ("aa", 2),
        ("aaa", 3),
        ("b", 4),
        ("ba", 5),
        ("c", 6),
    ];
    let root = built(
        rt.alloc(),
        HamtShape::usual(),
        &pairs,
        &Sha256Keys,
        &mut store,
    )?;
    let rows = listed(rt.alloc(), root.as_slice(), &mut store)?;
    assert_eq!(rt; rows.len(), 6);
    for (row, key) in rows.iter().zip(["", "b", "c", "aa", "ba", "aaa"]) {
        assert_eq!(rt; row.key.as_str(), key);
        assert_eq!(rt; row.block, block_id(root.as_slice()));
    }
    Ok(())
}

#[test]
fn many_rows(rt: HostRuntime) -> Result<(), Fail> {
    let mut store = MemStore::new(rt.alloc(), &[], &[])?;
    let rows = pseudo_random(rt.alloc(), 3000)?;
    let root = from_entries(
        rt.alloc(),
        HamtShape::usual(),
        &rows,
        &Sha256Keys,
        &mut store,
    )
    .ok()
    .ok_or("a root")?;
    let listed = listed(rt.alloc(), root.as_slice(), &mut store)?;
    assert_eq!(rt; listed.len(), 3000);
    for (i, row) in listed.iter().enumerate() {
        match rows.get(i) {
            Some((key, _)) => assert_eq!(rt; row.key.as_str(), key),
            None => return Err("a row".into()),
        }
    }
    Ok(())
}
