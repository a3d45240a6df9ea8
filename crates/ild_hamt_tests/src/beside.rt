//! Many edits of a HAMT beside a plain map of its entries, and edits of which each put fails in turn.
use crate::edited::{Edit, edit, ending};
use ild_bulk::from_entries;
use ild_bulk_walker::check_tree;
use ild_cbor::check;
use ild_data::{HamtShape, KeyHash, Octets, PadKeys, Sha256Keys, block_id};
use ild_edges::{MemStore, Store};
use ild_hamt::descend;
use ild_hamt_samples::{push, rows_of};
use ild_node::{Rows, node_of, write_node};
use std::alloc::Global;
use std::test::Fail;

/// How many keys the plain map has a place for.
const PLACES: usize = 256;

/// The values of all keys, by their numbers.
type Plain = [Option<u8>; PLACES];

fn letter(n: u32, shift: u32) -> char {
    char::from(b'a' + (n.wrapping_shr(shift) % 2) as u8)
}

/// The key with a number: its eight bits as letters, so that keys rise with their numbers.
fn key_of(alloc: Global, n: u32) -> Result<String, Fail> {
    let mut key = String::new(alloc);
    for shift in [7, 6, 5, 4, 3, 2, 1, 0] {
        key.push(letter(n, shift))?;
    }
    Ok(key)
}

/// The root node of these rows, from the entries alone.
fn root_of<H: KeyHash>(alloc: Global, rows: &Rows, keys: &H) -> Result<Octets, Fail> {
    let mut store = MemStore::new(alloc, &[], &[])?;
    Ok(
        from_entries(alloc, HamtShape::usual(), rows, keys, &mut store)
            .ok()
            .ok_or("a root")?,
    )
}

/// The root node of what the plain map holds.
fn rebuilt<H: KeyHash>(alloc: Global, plain: &Plain, keys: &H) -> Result<Octets, Fail> {
    let mut rows = Rows::new(alloc);
    for n in 0..PLACES {
        if let Some(byte) = plain[n] {
            push(alloc, &mut rows, key_of(alloc, n as u32)?.as_str(), &[byte])?;
        }
    }
    root_of(alloc, &rows, keys)
}

/// What an edit of a number sets its key to, or that it removes it.
fn value_of(state: u32) -> Option<u8> {
    if state.wrapping_shr(24) % 8 < 5 {
        Some((state.wrapping_shr(27) % 16) as u8)
    } else {
        None
    }
}

/// Does an edit, which is refused exactly where the plain map lacks a key to be removed.
fn step<H: KeyHash>(
    alloc: Global,
    root: &mut Octets,
    n: u32,
    value: Option<u8>,
    there: bool,
    keys: &H,
    store: &mut MemStore,
) -> Result<bool, Fail> {
    let key = key_of(alloc, n)?;
    match edit(alloc, root, (key.as_str(), value), keys, store) {
        Ok(next) => {
            *root = next;
            Ok(there || value.is_some())
        }
        Err("no key") => Ok(!there && value.is_none()),
        Err(word) => Err(word.into()),
    }
}

/// Whether so many edits, each of a linear congruential generator, leave what the plain map holds; after each of the last hundred.
fn agree<H: KeyHash>(alloc: Global, count: u32, keys: &H) -> Result<bool, Fail> {
    let mut store = MemStore::new(alloc, &[], &[])?;
    let mut root = write_node(alloc, HamtShape::usual(), &[])?;
    let mut plain: Plain = [None; PLACES];
    let mut state: u32 = 1;
    let mut same = true;
    for i in 0..count {
        state = state.wrapping_mul(1_103_515_245).wrapping_add(12345) % 0x8000_0000;
        let n = state.wrapping_shr(16) % 256;
        let value = value_of(state);
        let there = plain[n as usize].is_some();
        same &= step(alloc, &mut root, n, value, there, keys, &mut store)?;
        plain[n as usize] = value;
        if count - i <= 100 {
            same &= root.as_slice() == rebuilt(alloc, &plain, keys)?.as_slice();
        }
    }
    Ok(same)
}

#[test]
fn many_edits(rt: HostRuntime) -> Result<(), Fail> {
    assert_eq!(rt; agree(rt.alloc(), 10_000, &PadKeys)?, true);
    assert_eq!(rt; agree(rt.alloc(), 10_000, &Sha256Keys)?, true);
    Ok(())
}

/// An edit whose puts fail in turn.
#[derive(Clone, Copy)]
pub(crate) struct Failing<'k> {
    /// The entries before it.
    pub(crate) before: &'k [(&'k str, u8)],
    pub(crate) edit: Edit<'k>,
    /// The entries after it.
    pub(crate) after: &'k [(&'k str, u8)],
    /// How many blocks the entries before it take beneath their root, and how many the edit puts.
    pub(crate) built: u64,
    pub(crate) puts: u64,
}

/// A split with nodes of one link above it.
pub(crate) const SPLIT: Failing<'static> = Failing {
    before: &[("abcd1", 1), ("abcd2", 2), ("abcd3", 3)],
    edit: ("abcd4", Some(4)),
    after: &[("abcd1", 1), ("abcd2", 2), ("abcd3", 3), ("abcd4", 4)],
    built: 0,
    puts: 4,
};

/// A node that becomes a bucket, in a node that stays.
pub(crate) const COLLAPSE: Failing<'static> = Failing {
    before: &[
        ("xab1", 1),
        ("xab2", 2),
        ("xab3", 3),
        ("xab4", 4),
        ("xac1", 5),
    ],
    edit: ("xab4", None),
    after: &[("xab1", 1), ("xab2", 2), ("xab3", 3), ("xac1", 5)],
    built: 3,
    puts: 2,
};

/// The root node of these entries, and the nodes beneath it put.
pub(crate) fn root_in<K: Store>(
    alloc: Global,
    pairs: &[(&str, u8)],
    store: &mut K,
) -> Result<Octets, Fail> {
    let rows = rows_of(alloc, pairs)?;
    Ok(
        from_entries(alloc, HamtShape::usual(), &rows, &PadKeys, store)
            .ok()
            .ok_or("a root")?,
    )
}

/// Which of the new nodes on the key's way a store holds, from the lowest up, as the bits of a number.
fn held<K: Store>(alloc: Global, case: &Failing<'_>, store: &mut K) -> Result<u64, Fail> {
    let mut whole = MemStore::new(alloc, &[], &[])?;
    let root = root_in(alloc, case.after, &mut whole)?;
    let node = check(root.as_slice()).ok().ok_or("a block")?;
    let view = node_of(node, HamtShape::usual()).ok().ok_or("a node")?;
    let (key, _) = case.edit;
    let trail = descend(alloc, view, key, &PadKeys, &mut whole)
        .ok()
        .ok_or("a trail")?;
    let mut bits = 0u64;
    for block in trail.blocks() {
        let there = store
            .get(&block_id(block.as_slice()))
            .ok()
            .ok_or("a get")?
            .is_some();
        bits = bits.wrapping_shl(1) | there as u64;
    }
    Ok(bits)
}

/// How many entries stand beneath a root, of which every node is held.
fn counted<K: Store>(alloc: Global, root: &Octets, store: &mut K) -> Result<u64, Fail> {
    let node = check(root.as_slice()).ok().ok_or("a block")?;
    let view = node_of(node, HamtShape::usual()).ok().ok_or("a node")?;
    let at = block_id(root.as_slice());
    Ok(
        check_tree(alloc, view, at, &PadKeys, store)
            .ok()
            .ok_or("a whole tree")?,
    )
}

/// Whether the k-th put of an edit, which fails over this store, leaves the nodes beneath and those that were held before alone, and the same
/// edit then has its root.
pub(crate) fn fails_at<K: Store>(
    alloc: Global,
    case: &Failing<'_>,
    k: u64,
    store: &mut K,
) -> Result<bool, Fail> {
    let root = root_in(alloc, case.before, store)?;
    let first = edit(alloc, &root, case.edit, &PadKeys, store);
    let stopped = ending(first) == "store";
    let bits = held(alloc, case, store)?;
    let kept = counted(alloc, &root, store)? == case.before.len() as u64;
    let second = edit(alloc, &root, case.edit, &PadKeys, store)?;
    let wanted = root_of(alloc, &rows_of(alloc, case.after)?, &PadKeys)?;
    let whole = counted(alloc, &second, store)? == case.after.len() as u64;
    let children_first = bits
        == 1u64
            .wrapping_shl((k.wrapping_sub(1) % 64) as u32)
            .wrapping_sub(1);
    Ok(stopped && children_first && kept && whole && second.as_slice() == wanted.as_slice())
}

#[test]
fn each_put_fails(rt: HostRuntime) -> Result<(), Fail> {
    for case in [SPLIT, COLLAPSE] {
        for k in 0..case.puts {
            let number = k.wrapping_add(1);
            let mut store = MemStore::new(rt.alloc(), &[], &[case.built.wrapping_add(number)])?;
            assert_eq!(rt; fails_at(rt.alloc(), &case, number, &mut store)?, true);
        }
    }
    Ok(())
}
