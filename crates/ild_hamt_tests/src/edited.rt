//! HAMTs under edits, key by key. The blocks and the CIDs are those of tests/hamt/trie.py, a plain trie in Python.
use crate::nodes::EMPTY;
use ild_cbor::check;
use ild_data::{HamtShape, KeyHash, Octets, PadKeys, Sha256Keys, block_id};
use ild_edges::{MemStore, Store};
use ild_hamt::descend;
use ild_hamt_samples::{ABC, CHILD_OF_FOUR, ROOT_OF_FOUR, ROOT_OF_THREE, is_scalar};
use ild_node::{HamtFault, node_of, write_node};
use std::alloc::Global;
use std::test::Fail;

/// One edit: a key, and the byte that it is set to, or that it is removed.
pub(crate) type Edit<'k> = (&'k str, Option<u8>);

/// The root node after an edit, or a word for why not.
pub(crate) fn edit<K: Store, H: KeyHash>(
    alloc: Global,
    root: &Octets,
    edit: Edit<'_>,
    keys: &H,
    store: &mut K,
) -> Result<Octets, &'static str> {
    edit_of(alloc, HamtShape::usual(), root, edit, keys, store)
}

/// The same of a HAMT of any shape.
pub(crate) fn edit_of<K: Store, H: KeyHash>(
    alloc: Global,
    shape: HamtShape,
    root: &Octets,
    edit: Edit<'_>,
    keys: &H,
    store: &mut K,
) -> Result<Octets, &'static str> {
    let node = check(root.as_slice()).ok().ok_or("a block")?;
    let view = node_of(node, shape).ok().ok_or("a node")?;
    let (key, value) = edit;
    let trail = descend(alloc, view, key, keys, store)
        .ok()
        .ok_or("a trail")?;
    let answer = match value {
        Some(byte) => {
            let bytes = [byte];
            let value = check(&bytes).ok().ok_or("a value")?;
            if !is_scalar(&value) {
                return Err("a scalar");
            }
            if trail.exhausted() {
                return Err("exhausted");
            }
            trail.set(alloc, view, &value, keys, store)
        }
        None => trail.remove(alloc, view, keys, store),
    };
    match answer {
        Ok(root) => Ok(root),
        Err(HamtFault::NoKey) => Err("no key"),
        Err(HamtFault::Store) => Err("store"),
        Err(_) => Err("a fault"),
    }
}

/// The root node after edits of an empty HAMT.
fn edited<H: KeyHash>(
    alloc: Global,
    edits: &[Edit<'_>],
    keys: &H,
    store: &mut MemStore,
) -> Result<Octets, Fail> {
    let mut root = write_node(alloc, HamtShape::usual(), &[])?;
    for step in edits {
        root = edit(alloc, &root, *step, keys, store)?;
    }
    Ok(root)
}

#[test]
fn four_and_three(rt: HostRuntime) -> Result<(), Fail> {
    let mut store = MemStore::new(rt.alloc(), &[], &[])?;
    let up = [
        ("\0\x01", Some(1)),
        ("\0\x02", Some(2)),
        ("\0\x03", Some(3)),
        ("\0\x04", Some(4)),
    ];
    let root = edited(rt.alloc(), &up, &PadKeys, &mut store)?;
    assert_eq!(rt; root.as_slice(), ROOT_OF_FOUR);
    let child = store
        .get(&block_id(CHILD_OF_FOUR))
        .ok()
        .ok_or("a get")?
        .ok_or("a child")?;
    assert_eq!(rt; child.as_slice(), CHILD_OF_FOUR);
    let root = edit(rt.alloc(), &root, ("\0\x04", None), &PadKeys, &mut store)?;
    assert_eq!(rt; root.as_slice(), ROOT_OF_THREE);
    Ok(())
}

#[test]
fn one_key_comes_and_goes(rt: HostRuntime) -> Result<(), Fail> {
    let mut store = MemStore::new(rt.alloc(), &[], &[])?;
    let root = edited(rt.alloc(), &[("abc", Some(1))], &Sha256Keys, &mut store)?;
    assert_eq!(rt; root.as_slice(), ABC);
    let root = edit(rt.alloc(), &root, ("abc", None), &Sha256Keys, &mut store)?;
    assert_eq!(rt; root.as_slice(), EMPTY);
    Ok(())
}

#[test]
fn in_the_other_order(rt: HostRuntime) -> Result<(), Fail> {
    let mut store = MemStore::new(rt.alloc(), &[], &[])?;
    let down = [
        ("\0\x04", Some(4)),
        ("\0\x03", Some(3)),
        ("\0\x02", Some(2)),
        ("\0\x01", Some(1)),
    ];
    let root = edited(rt.alloc(), &down, &PadKeys, &mut store)?;
    assert_eq!(rt; root.as_slice(), ROOT_OF_FOUR);
    Ok(())
}

/// Keys that agree in all 32 bytes of their hashes.
const AGREE: [Edit<'static>; 4] = [
    ("kkkkkkkkkkkkkkkkkkkkkkkkkkkkkkkk1", Some(1)),
    ("kkkkkkkkkkkkkkkkkkkkkkkkkkkkkkkk2", Some(2)),
    ("kkkkkkkkkkkkkkkkkkkkkkkkkkkkkkkk3", Some(3)),
    ("kkkkkkkkkkkkkkkkkkkkkkkkkkkkkkkk4", Some(4)),
];

/// A word for how an edit ends.
pub(crate) fn ending(answer: Result<Octets, &'static str>) -> &'static str {
    match answer.err() {
        Some(word) => word,
        None => "root",
    }
}

#[test]
fn keys_that_agree(rt: HostRuntime) -> Result<(), Fail> {
    let mut store = MemStore::new(rt.alloc(), &[], &[])?;
    let root = edited(rt.alloc(), &AGREE[..3], &PadKeys, &mut store)?;
    let fourth = edit(rt.alloc(), &root, AGREE[3], &PadKeys, &mut store);
    assert_eq!(rt; ending(fourth), "exhausted");
    let again = edit(rt.alloc(), &root, AGREE[2], &PadKeys, &mut store);
    assert_eq!(rt; ending(again), "root");
    let (missing, _) = AGREE[3];
    let gone = edit(rt.alloc(), &root, (missing, None), &PadKeys, &mut store);
    assert_eq!(rt; ending(gone), "no key");
    Ok(())
}

/// A letter, a or b.
fn letter(state: u32, shift: u32) -> char {
    char::from(b'a' + (state.wrapping_shr(shift) % 2) as u8)
}

/// The root node after so many edits of keys of six letters, each of a linear congruential generator.
fn shuffled<H: KeyHash>(
    alloc: Global,
    count: u16,
    keys: &H,
    store: &mut MemStore,
) -> Result<Octets, Fail> {
    let mut root = write_node(alloc, HamtShape::usual(), &[])?;
    let mut state: u32 = 1;
    for _ in 0..count {
        state = state.wrapping_mul(1_103_515_245).wrapping_add(12345) % 0x8000_0000;
        let mut key = String::new(alloc);
        for shift in [21, 20, 19, 18, 17, 16] {
            key.push(letter(state, shift))?;
        }
        let value = if state.wrapping_shr(24) % 8 < 5 {
            Some((state.wrapping_shr(27) % 16) as u8)
        } else {
            None
        };
        match edit(alloc, &root, (key.as_str(), value), keys, store) {
            Ok(next) => root = next,
            Err("no key") => {}
            Err(word) => return Err(word.into()),
        }
    }
    Ok(root)
}

/// The CID of the root after so many edits.
fn is_rooted<H: KeyHash>(rt: &HostRuntime, count: u16, keys: &H, cid: &str) -> Result<bool, Fail> {
    let mut store = MemStore::new(rt.alloc(), &[], &[])?;
    let root = shuffled(rt.alloc(), count, keys, &mut store)?;
    let text = block_id(root.as_slice()).text(rt.alloc())?;
    Ok(text.as_str() == cid)
}

#[test]
fn edits_along_bytes(rt: HostRuntime) -> Result<(), Fail> {
    let cid = "bafyreihot7wzyn63o6mmu5ufmx5b2ocp3qiglfvrfqqra2jhtorwojqgye";
    assert_eq!(rt; is_rooted(&rt, 200, &PadKeys, cid)?, true);
    let cid = "bafyreibpksh6ojzgi4ziqudmstb5oylmusk6wzdjwhc7gmj46wvbpdfe34";
    assert_eq!(rt; is_rooted(&rt, 400, &PadKeys, cid)?, true);
    Ok(())
}

#[test]
fn edits_along_hashes(rt: HostRuntime) -> Result<(), Fail> {
    let cid = "bafyreif3rirdyn5rcy5xausvp673pgy6otyzenwkfwypgx43gwxvwypk7m";
    assert_eq!(rt; is_rooted(&rt, 200, &Sha256Keys, cid)?, true);
    let cid = "bafyreicmgddw5czipdfyiseuaz3r6npvqsvxeacfztwvy7ot6uuqrgyb7u";
    assert_eq!(rt; is_rooted(&rt, 400, &Sha256Keys, cid)?, true);
    Ok(())
}
