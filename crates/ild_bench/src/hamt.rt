//! A HAMT under sets and deletes over a store in memory. The edits are four bytes each: what is done, two for the key, and one
//! that says nothing.

use ild_cbor::check;
use ild_data::{HamtShape, Octets, Sha256Keys, block_id};
use ild_edges::MemStore;
use ild_hamt::descend;
use ild_hamt_samples::is_scalar;
use ild_node::{HamtFault, NodeView, node_of, write_node};
use std::alloc::Global;

/// Below this the first byte of an edit says that the key is removed.
const FIRST_SET: u8 = 96;

fn letter(nibble: u8) -> char {
    char::from(b'a' + nibble % 16)
}

/// The key of an edit, of eight letters.
fn key_of(alloc: Global, high: u8, low: u8) -> Option<String> {
    let mut key = String::new(alloc);
    for _ in 0..2 {
        key.push(letter(high / 16)).ok()?;
        key.push(letter(high)).ok()?;
        key.push(letter(low / 16)).ok()?;
        key.push(letter(low)).ok()?;
    }
    Some(key)
}

fn view_of(root: &Octets) -> Option<NodeView<'_>> {
    node_of(check(root.as_slice()).ok()?, HamtShape::usual()).ok()
}

/// The root after one edit, or a word for why there is none.
fn edited(
    alloc: Global,
    root: &Octets,
    key: &str,
    what: u8,
    store: &mut MemStore,
) -> Result<Octets, &'static str> {
    let view = view_of(root).ok_or("a node")?;
    let trail = descend(alloc, view, key, &Sha256Keys, store)
        .ok()
        .ok_or("a trail")?;
    let answer = if what < FIRST_SET {
        trail.remove(alloc, view, &Sha256Keys, store)
    } else {
        let bytes = [what % 24];
        let value = check(&bytes).ok().ok_or("a value")?;
        if trail.exhausted() || !is_scalar(&value) {
            return Err("no room");
        }
        trail.set(alloc, view, &value, &Sha256Keys, store)
    };
    match answer {
        Ok(root) => Ok(root),
        Err(HamtFault::NoKey) => Err("no key"),
        Err(_) => Err("a fault"),
    }
}

/// The root after all edits of an empty HAMT.
fn edited_all(alloc: Global, bytes: &[u8]) -> Option<Octets> {
    let mut store = MemStore::new(alloc, &[], &[]).ok()?;
    let mut root = write_node(alloc, HamtShape::usual(), &[]).ok()?;
    for i in 0..bytes.len() / 4 {
        let what = *bytes.get(4 * i)?;
        let key = key_of(alloc, *bytes.get(4 * i + 1)?, *bytes.get(4 * i + 2)?)?;
        match edited(alloc, &root, key.as_str(), what, &mut store) {
            Ok(next) => root = next,
            Err("no key") => {}
            Err(_) => return None,
        }
    }
    Some(root)
}

/// All edits are done.
pub(crate) fn edit_all(alloc: Global, bytes: &[u8], times: u32) -> Option<u64> {
    let mut sum: u64 = 0;
    for _ in 0..times {
        let root = edited_all(alloc, bytes)?;
        for byte in &block_id(root.as_slice()).0[..4] {
            sum = sum.wrapping_mul(256).wrapping_add(*byte as u64);
        }
    }
    Some(sum)
}
