//! Trees of HAMT nodes that are no tries: each with the block that is named, and why. And every bit of a tree turned over.
use ild_bulk::from_entries;
use ild_bulk_walker::{Walker, check_tree};
use ild_cbor::{BlockWhy, Why, check};
use ild_data::{BlockId, HamtShape, KeyHash, PadKeys, Sha256Keys, block_id};
use ild_edges::MemStore;
use ild_hamt_samples::{CHILD_OF_FOUR, push};
use ild_node::{HamtFault, Rows, node_of};
use std::alloc::Global;
use std::test::Fail;

/// The node of the one entry "abc" at depth 1, where the sha2-256 of "abc" has the byte 78: a child with too few entries.
const ABC_BENEATH: &[u8] =
    b"\x82\x58\x20\x00\x00\x00\x00\x00\x00\x00\x00\x00\x00\x00\x00\x00\x00\x00\x01\x00\x00\x00\x00\x00\x00\x00\x00\x00\x00\x00\x00\x00\x00\x00\x00\x81\x81\x82\x43\x61\x62\x63\x01";

/// The four entries of a child, with the last two of one bucket in falling order.
const FALLING: &[u8] =
    b"\x82\x58\x20\x0e\x00\x00\x00\x00\x00\x00\x00\x00\x00\x00\x00\x00\x00\x00\x00\x00\x00\x00\x00\x00\x00\x00\x00\x00\x00\x00\x00\x00\x00\x00\x00\x83\x81\x82\x42\x00\x01\x01\x81\x82\x42\x00\x02\x02\x82\x82\x43\x00\x03\x01\x03\x82\x42\x00\x03\x04";

/// The four entries of a child, of which the last stands at index 5 and has index 4.
const MISPLACED: &[u8] =
    b"\x82\x58\x20\x2e\x00\x00\x00\x00\x00\x00\x00\x00\x00\x00\x00\x00\x00\x00\x00\x00\x00\x00\x00\x00\x00\x00\x00\x00\x00\x00\x00\x00\x00\x00\x00\x84\x81\x82\x42\x00\x01\x01\x81\x82\x42\x00\x02\x02\x81\x82\x42\x00\x03\x03\x81\x82\x42\x00\x04\x04";

const TRIE: BlockWhy = BlockWhy::Shape(Why::Trie);

/// The node whose only slot, at an index below 8 of a byte of its map, is the link to a child.
fn over(alloc: Global, byte: usize, bit: u8, child: BlockId) -> Result<Vec<u8>, Fail> {
    let mut block = Vec::new(alloc);
    block.extend_from_slice(b"\x82\x58\x20")?;
    for i in 0..32 {
        block.push(if i == byte { bit } else { 0 })?;
    }
    block.extend_from_slice(b"\x81\xd8\x2a\x58\x25\x00\x01\x71\x12\x20")?;
    block.extend_from_slice(&child.0)?;
    Ok(block)
}

/// The block that is named, and why, where a walk beneath a root is refused.
fn refused<H: KeyHash>(
    alloc: Global,
    root: &[u8],
    keys: &H,
    store: &mut MemStore,
) -> Result<Option<(BlockId, BlockWhy)>, Fail> {
    let view = node_of(check(root).ok().ok_or("a block")?, HamtShape::usual())
        .ok()
        .ok_or("a node")?;
    Ok(match check_tree(alloc, view, block_id(root), keys, store) {
        Err(HamtFault::Block { id, why }) => Some((id, why)),
        _ => None,
    })
}

/// How a walk ends beneath a root over this child at index 0.
fn over_child(alloc: Global, child: &[u8]) -> Result<Option<(BlockId, BlockWhy)>, Fail> {
    let mut store = MemStore::new(alloc, &[], &[])?;
    store.add(child)?;
    let root = over(alloc, 0, 1, block_id(child))?;
    refused(alloc, root.as_slice(), &PadKeys, &mut store)
}

#[test]
fn a_child_with_too_few(rt: HostRuntime) -> Result<(), Fail> {
    let child = block_id(ABC_BENEATH);
    let root = over(rt.alloc(), 23, 4, child)?;
    let mut store = MemStore::new(rt.alloc(), &[], &[])?;
    let lacks = refused(rt.alloc(), root.as_slice(), &Sha256Keys, &mut store)?;
    assert_eq!(rt; lacks, Some((child, BlockWhy::Missing)));
    store.add(ABC_BENEATH)?;
    let few = refused(rt.alloc(), root.as_slice(), &Sha256Keys, &mut store)?;
    assert_eq!(rt; few, Some((child, TRIE)));
    Ok(())
}

#[test]
fn a_child_out_of_form(rt: HostRuntime) -> Result<(), Fail> {
    assert_eq!(rt; over_child(rt.alloc(), CHILD_OF_FOUR)?, None);
    let falling = over_child(rt.alloc(), FALLING)?;
    assert_eq!(rt; falling, Some((block_id(FALLING), TRIE)));
    let misplaced = over_child(rt.alloc(), MISPLACED)?;
    assert_eq!(rt; misplaced, Some((block_id(MISPLACED), TRIE)));
    let no_node = over_child(rt.alloc(), b"\x80")?;
    assert_eq!(rt; no_node, Some((block_id(b"\x80"), TRIE)));
    Ok(())
}

#[test]
fn a_child_that_is_no_block(rt: HostRuntime) -> Result<(), Fail> {
    let cut = &CHILD_OF_FOUR[..40];
    let named = match over_child(rt.alloc(), cut)? {
        Some((id, BlockWhy::Cbor(_))) => id == block_id(cut),
        _ => false,
    };
    assert_eq!(rt; named, true);
    Ok(())
}

/// A chain of so many nodes over a child, each at index 0 of the one above, all of them added; and the blocks of the last two.
fn chain(alloc: Global, count: u32, store: &mut MemStore) -> Result<(Vec<u8>, BlockId), Fail> {
    store.add(CHILD_OF_FOUR)?;
    let mut last = over(alloc, 0, 1, block_id(CHILD_OF_FOUR))?;
    let lowest = block_id(last.as_slice());
    for _ in 1..count {
        store.add(last.as_slice())?;
        last = over(alloc, 0, 1, block_id(last.as_slice()))?;
    }
    Ok((last, lowest))
}

#[test]
fn a_child_at_the_last_level(rt: HostRuntime) -> Result<(), Fail> {
    let mut store = MemStore::new(rt.alloc(), &[], &[])?;
    let (root, lowest) = chain(rt.alloc(), 32, &mut store)?;
    let deep = refused(rt.alloc(), root.as_slice(), &PadKeys, &mut store)?;
    assert_eq!(rt; deep, Some((lowest, TRIE)));
    let mut store = MemStore::new(rt.alloc(), &[], &[])?;
    let (root, _) = chain(rt.alloc(), 31, &mut store)?;
    let stray = refused(rt.alloc(), root.as_slice(), &PadKeys, &mut store)?;
    assert_eq!(rt; stray, Some((block_id(CHILD_OF_FOUR), TRIE)));
    Ok(())
}

/// The rows of all entries that a walk gives, or nothing where it is refused.
fn given(alloc: Global, root: &[u8], store: &mut MemStore) -> Result<Option<Rows>, Fail> {
    let Ok(node) = check(root) else {
        return Ok(None);
    };
    let Ok(view) = node_of(node, HamtShape::usual()) else {
        return Ok(None);
    };
    let mut walker = Walker::new(alloc, view, block_id(root))?;
    let mut rows = Rows::new(alloc);
    for _ in 0..1000 {
        match walker.next(&PadKeys, store) {
            Ok(Some(row)) => push(alloc, &mut rows, row.key.as_str(), row.value.as_slice())?,
            Ok(None) => return Ok(Some(rows)),
            Err(_) => return Ok(None),
        }
    }
    Err("an end".into())
}

/// Whether a walk is refused, or gives the entries of which the root is that of the HAMT.
fn is_sound(alloc: Global, root: &[u8], store: &mut MemStore) -> Result<bool, Fail> {
    match given(alloc, root, store)? {
        Some(rows) => match from_entries(alloc, HamtShape::usual(), &rows, &PadKeys, store) {
            Ok(again) => Ok(again.as_slice() == root),
            Err(_) => Ok(false),
        },
        None => Ok(true),
    }
}

/// The block with one bit turned over.
fn turned(alloc: Global, block: &[u8], at: usize, bit: u32) -> Result<Vec<u8>, Fail> {
    let mut turned = Vec::new(alloc);
    turned.extend_from_slice(block)?;
    match turned.get_mut(at) {
        Some(byte) => *byte ^= 1u8.wrapping_shl(bit),
        None => return Err("a place".into()),
    }
    Ok(turned)
}

/// The child of fifty entries at index 0: the keys are a zero and a byte.
fn child_of_fifty(alloc: Global) -> Result<Vec<u8>, Fail> {
    let mut block = Vec::new(alloc);
    block.extend_from_slice(b"\x82\x58\x20\xfe\xff\xff\xff\xff\xff\x07")?;
    for _ in 7..32 {
        block.push(0)?;
    }
    block.extend_from_slice(b"\x98\x32")?;
    for n in 1..51u8 {
        block.extend_from_slice(&[0x81, 0x82, 0x42, 0, n, n % 20 + 1])?;
    }
    Ok(block)
}

#[test]
fn fifty_entries(rt: HostRuntime) -> Result<(), Fail> {
    let child = child_of_fifty(rt.alloc())?;
    let root = over(rt.alloc(), 0, 1, block_id(child.as_slice()))?;
    let mut store = MemStore::new(rt.alloc(), &[], &[])?;
    store.add(child.as_slice())?;
    let rows = given(rt.alloc(), root.as_slice(), &mut store)?.ok_or("a trie")?;
    assert_eq!(rt; rows.len(), 50);
    Ok(())
}

#[test]
fn every_bit_of_the_root(rt: HostRuntime) -> Result<(), Fail> {
    let child = child_of_fifty(rt.alloc())?;
    let root = over(rt.alloc(), 0, 1, block_id(child.as_slice()))?;
    let mut store = MemStore::new(rt.alloc(), &[], &[])?;
    store.add(child.as_slice())?;
    for at in 0..root.len() {
        for bit in 0..8 {
            let turned = turned(rt.alloc(), root.as_slice(), at, bit)?;
            let sound = is_sound(rt.alloc(), turned.as_slice(), &mut store)?;
            assert_eq!(rt; sound, true);
        }
    }
    Ok(())
}

/// Whether a walk beneath a root over this child alone is sound.
fn is_sound_over(alloc: Global, child: &[u8]) -> Result<bool, Fail> {
    let mut store = MemStore::new(alloc, &[], &[])?;
    store.add(child)?;
    let root = over(alloc, 0, 1, block_id(child))?;
    is_sound(alloc, root.as_slice(), &mut store)
}

#[test]
fn every_bit_of_the_child(rt: HostRuntime) -> Result<(), Fail> {
    let child = child_of_fifty(rt.alloc())?;
    for at in 0..child.len() {
        for bit in 0..8 {
            let turned = turned(rt.alloc(), child.as_slice(), at, bit)?;
            let sound = is_sound_over(rt.alloc(), turned.as_slice())?;
            assert_eq!(rt; sound, true);
        }
    }
    Ok(())
}
