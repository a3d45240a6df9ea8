//! Whole HAMTs from their entries. The blocks and the CIDs are those of tests/hamt/trie.py, a plain trie in Python.
use ild_bulk::from_entries;
use ild_data::{HamtShape, KeyHash, PadKeys, Sha256Keys, block_id};
use ild_edges::{MemStore, Store};
use ild_hamt_samples::{
    ABC, CHILD_OF_FOUR, FOUR, ROOT_OF_FOUR, ROOT_OF_THREE, TWO_CHILDREN, built, pseudo_random,
    rows_of,
};
use ild_node::HamtFault;
use std::alloc::Global;
use std::test::Fail;

/// Four keys that agree in all 32 bytes of their hashes.
const AGREE: [(&str, u8); 4] = [
    ("kkkkkkkkkkkkkkkkkkkkkkkkkkkkkkkk1", 1),
    ("kkkkkkkkkkkkkkkkkkkkkkkkkkkkkkkk2", 2),
    ("kkkkkkkkkkkkkkkkkkkkkkkkkkkkkkkk3", 3),
    ("kkkkkkkkkkkkkkkkkkkkkkkkkkkkkkkk4", 4),
];

/// How many keys, and the CID of the root node of their HAMT.
const MANY: [(u16, &str); 2] = [
    (
        1000,
        "bafyreihetmn3hkdixua3ovdbstjtijxkuayjcr3ihlemi4zljuig7vwpsm",
    ),
    (
        10000,
        "bafyreicpa3ynjflb6l6325sdipj7vsyoddht2zf3pjnypp5lufk5ztt32a",
    ),
];

/// A word for how building these entries ends, where the k-th put fails.
fn ending<H: KeyHash>(
    alloc: Global,
    pairs: &[(&str, u8)],
    keys: &H,
    k: u64,
) -> Result<&'static str, Fail> {
    let mut store = MemStore::new(alloc, &[], &[k])?;
    let rows = rows_of(alloc, pairs)?;
    Ok(
        match from_entries(alloc, HamtShape::usual(), &rows, keys, &mut store) {
            Ok(_) => "root",
            Err(HamtFault::Exhausted) => "exhausted",
            Err(HamtFault::Store) => "store",
            Err(_) => "another fault",
        },
    )
}

#[test]
fn one_entry(rt: HostRuntime) -> Result<(), Fail> {
    let mut store = MemStore::new(rt.alloc(), &[], &[])?;
    let root = built(
        rt.alloc(),
        HamtShape::usual(),
        &[("abc", 1)],
        &Sha256Keys,
        &mut store,
    )?;
    assert_eq!(rt; root.as_slice(), ABC);
    let root = built(
        rt.alloc(),
        HamtShape::usual(),
        &FOUR[..3],
        &PadKeys,
        &mut store,
    )?;
    assert_eq!(rt; root.as_slice(), ROOT_OF_THREE);
    Ok(())
}

#[test]
fn a_child_is_put(rt: HostRuntime) -> Result<(), Fail> {
    let mut store = MemStore::new(rt.alloc(), &[], &[])?;
    let root = built(rt.alloc(), HamtShape::usual(), &FOUR, &PadKeys, &mut store)?;
    assert_eq!(rt; root.as_slice(), ROOT_OF_FOUR);
    let child = store
        .get(&block_id(CHILD_OF_FOUR))
        .ok()
        .ok_or("a get")?
        .ok_or("a child")?;
    assert_eq!(rt; child.as_slice(), CHILD_OF_FOUR);
    assert_eq!(rt;
        store
            .get(&block_id(ROOT_OF_FOUR))
            .ok()
            .ok_or("a get")?
            .is_none(),
        true
    );
    Ok(())
}

#[test]
fn keys_that_agree(rt: HostRuntime) -> Result<(), Fail> {
    assert_eq!(rt; ending(rt.alloc(), &AGREE, &PadKeys, 1)?, "exhausted");
    assert_eq!(rt; ending(rt.alloc(), &AGREE[..3], &PadKeys, 1)?, "root");
    assert_eq!(rt; ending(rt.alloc(), &AGREE, &Sha256Keys, 1)?, "root");
    Ok(())
}

#[test]
fn a_put_fails(rt: HostRuntime) -> Result<(), Fail> {
    assert_eq!(rt; ending(rt.alloc(), &TWO_CHILDREN, &PadKeys, 1)?, "store");
    assert_eq!(rt; ending(rt.alloc(), &TWO_CHILDREN, &PadKeys, 2)?, "store");
    assert_eq!(rt; ending(rt.alloc(), &TWO_CHILDREN, &PadKeys, 3)?, "root");
    Ok(())
}

#[test]
fn many_keys(rt: HostRuntime) -> Result<(), Fail> {
    for (count, cid) in MANY {
        let mut store = MemStore::new(rt.alloc(), &[], &[])?;
        let rows = pseudo_random(rt.alloc(), count)?;
        let root = from_entries(
            rt.alloc(),
            HamtShape::usual(),
            &rows,
            &Sha256Keys,
            &mut store,
        )
        .ok()
        .ok_or("a root")?;
        let text = block_id(root.as_slice()).text(rt.alloc())?;
        assert_eq!(rt; text.as_str(), cid);
    }
    Ok(())
}
