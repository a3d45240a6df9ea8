//! HAMTs of other shapes than the usual one.
use crate::edited::{edit_of, ending};
use ild_bulk_walker::check_tree;
use ild_cbor::check;
use ild_data::{HamtShape, Octets, PadKeys, Sha256Keys, block_id};
use ild_edges::{MemStore, Store};
use ild_emit::Emit;
use ild_hamt_samples::built;
use ild_node::{node_of, root_of, write_node, write_root};
use std::alloc::Global;
use std::test::Fail;

const ABC_ROOT: &[u8] =
    b"\xa3\x64\x68\x61\x6d\x74\x82\x41\x20\x81\x81\x82\x43\x61\x62\x63\x01\x67\x68\x61\x73\x68\x41\x6c\x67\x12\x6a\x62\x75\x63\x6b\x65\x74\x53\x69\x7a\x65\x01";

/// The node at depth 2 of the keys of the one byte 0 and 1, padded: their bits 6 to 8 are 000 and 010.
const LAST_OF_TWO: &[u8] = b"\x82\x41\x05\x82\x81\x82\x41\x00\x01\x81\x82\x41\x01\x02";

const ROOT_OF_ONE: &[u8] = b"\x82\x41\x01\x81\x81\x82\x41\x00\x01";

/// The shape of 3 bits and buckets of one entry.
fn least() -> Result<HamtShape, Fail> {
    Ok(HamtShape::new(3, 1).ok_or("a shape")?)
}

/// The block of a node with one child, at index 0.
fn over(alloc: Global, child: &[u8]) -> Result<Octets, Fail> {
    let mut out = Emit::new(alloc);
    out.spelled(b"\x82\x41\x01\x81")?;
    out.block_link(&block_id(child))?;
    Ok(out.finish())
}

/// Whether a store has a block.
fn has(store: &mut MemStore, block: &[u8]) -> bool {
    match store.get(&block_id(block)) {
        Ok(Some(got)) => got.as_slice() == block,
        _ => false,
    }
}

#[test]
fn one_key_of_three_bits(rt: HostRuntime) -> Result<(), Fail> {
    let mut store = MemStore::new(rt.alloc(), &[], &[])?;
    let shape = least()?;
    let root = built(rt.alloc(), shape, &[("abc", 1)], &Sha256Keys, &mut store)?;
    let node = check(root.as_slice()).ok().ok_or("a block")?;
    assert_eq!(rt; write_root(rt.alloc(), shape, &node)?.as_slice(), ABC_ROOT);
    let whole = check(ABC_ROOT).ok().ok_or("a block")?;
    assert_eq!(rt; root_of(whole, shape).is_ok(), true);
    let whole = check(ABC_ROOT).ok().ok_or("a block")?;
    assert_eq!(rt; root_of(whole, HamtShape::usual()).is_ok(), false);
    let other = HamtShape::new(3, 2).ok_or("a shape")?;
    let whole = check(ABC_ROOT).ok().ok_or("a block")?;
    assert_eq!(rt; root_of(whole, other).is_ok(), false);
    Ok(())
}

#[test]
fn two_keys_that_part_across_a_byte(rt: HostRuntime) -> Result<(), Fail> {
    let mut store = MemStore::new(rt.alloc(), &[], &[])?;
    let shape = least()?;
    let next = over(rt.alloc(), LAST_OF_TWO)?;
    let top = over(rt.alloc(), next.as_slice())?;
    let root = built(
        rt.alloc(),
        shape,
        &[("\0", 1), ("\x01", 2)],
        &PadKeys,
        &mut store,
    )?;
    assert_eq!(rt; root.as_slice(), top.as_slice());
    assert_eq!(rt; has(&mut store, next.as_slice()), true);
    assert_eq!(rt; has(&mut store, LAST_OF_TWO), true);
    let root = edit_of(
        rt.alloc(),
        shape,
        &root,
        ("\x01", None),
        &PadKeys,
        &mut store,
    )?;
    assert_eq!(rt; root.as_slice(), ROOT_OF_ONE);
    Ok(())
}

/// How many entries the walk over a HAMT of these rows of one byte each counts, where the HAMT built at once is that of the sets and removes.
fn counted(alloc: Global, shape: HamtShape, keys: &[&str]) -> Result<u64, Fail> {
    let mut store = MemStore::new(alloc, &[], &[])?;
    let mut pairs = Vec::new(alloc);
    let mut root = write_node(alloc, shape, &[])?;
    for key in keys {
        root = edit_of(alloc, shape, &root, (*key, Some(1)), &PadKeys, &mut store)?;
        pairs.push((*key, 1u8))?;
    }
    root = edit_of(alloc, shape, &root, ("zz", Some(2)), &PadKeys, &mut store)?;
    root = edit_of(alloc, shape, &root, ("zz", None), &PadKeys, &mut store)?;
    let whole = built(alloc, shape, pairs.as_slice(), &PadKeys, &mut store)?;
    if root.as_slice() != whole.as_slice() {
        return Err("the same root".into());
    }
    let view = node_of(check(root.as_slice()).ok().ok_or("a block")?, shape)
        .ok()
        .ok_or("a node")?;
    let id = block_id(root.as_slice());
    Ok(
        check_tree(alloc, view, id, &PadKeys, &mut store)
            .ok()
            .ok_or("a walk")?,
    )
}

#[test]
fn every_shape(rt: HostRuntime) -> Result<(), Fail> {
    let keys = [
        "", "A", "B", "a", "aa", "ab", "abc", "abcd", "abd", "ac", "b", "ba", "bb", "bbb", "c",
        "ca", "m", "ma", "mb", "n",
    ];
    for width in 3..9 {
        for bucket in 1..17 {
            let shape = HamtShape::new(width, bucket).ok_or("a shape")?;
            assert_eq!(rt; counted(rt.alloc(), shape, &keys)?, 20);
        }
    }
    Ok(())
}

/// Keys whose hashes, padded, differ in their last bit alone.
const LAST_BIT: [(&str, Option<u8>); 2] = [
    ("kkkkkkkkkkkkkkkkkkkkkkkkkkkkkkk0", Some(1)),
    ("kkkkkkkkkkkkkkkkkkkkkkkkkkkkkkk1", Some(2)),
];

#[test]
fn keys_that_part_at_the_last_bit(rt: HostRuntime) -> Result<(), Fail> {
    // 85 indices of 3 bits leave that bit out, and 64 of 4 bits reach it.
    for (width, word) in [(3, "exhausted"), (4, "root")] {
        let mut store = MemStore::new(rt.alloc(), &[], &[])?;
        let shape = HamtShape::new(width, 1).ok_or("a shape")?;
        let none = write_node(rt.alloc(), shape, &[])?;
        let one = edit_of(rt.alloc(), shape, &none, LAST_BIT[0], &PadKeys, &mut store)?;
        let two = edit_of(rt.alloc(), shape, &one, LAST_BIT[1], &PadKeys, &mut store);
        assert_eq!(rt; ending(two), word);
    }
    Ok(())
}
