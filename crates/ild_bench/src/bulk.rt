//! The nodes of a HAMT from its entries, and the hashing alone that this takes. The entries are those of a map, of scalars, whose
//! keys rise bytewise.

use ild_bulk::plan_rows;
use ild_cbor::{Node, check};
use ild_data::{HamtShape, KeyHash, NamedBlock, Octets, Sha256Keys, block_id};
use ild_hamt_samples::{is_above, is_scalar};
use ild_node::Rows;
use std::alloc::Global;

/// Appends a row, whose key is above the others and whose value is a scalar.
fn push(alloc: Global, rows: &mut Rows, key: &str, value: &Node<'_>) -> Option<()> {
    if !is_above(rows, key) || !is_scalar(value) {
        return None;
    }
    rows.push(alloc, key, value).ok()
}

/// The entries of a map as rows.
fn rows_of(alloc: Global, bytes: &[u8]) -> Option<Rows> {
    let node = check(bytes).ok()?;
    let mut rows = Rows::new(alloc);
    for (key, value) in node.entries()? {
        push(alloc, &mut rows, key, &value)?;
    }
    Some(rows)
}

/// The root of a HAMT, and the blocks beneath it.
fn planned(alloc: Global, rows: &Rows) -> Option<(Octets, Vec<NamedBlock>)> {
    let mut blocks = Vec::new(alloc);
    match plan_rows(alloc, HamtShape::usual(), rows, &Sha256Keys, &mut blocks) {
        Ok(root) => Some((root, blocks)),
        Err(_) => None,
    }
}

/// The nodes of a HAMT of all entries are made. Those beneath the root are hashed on the way.
pub(crate) fn plan_all(alloc: Global, bytes: &[u8], times: u32) -> Option<u64> {
    let rows = rows_of(alloc, bytes)?;
    let mut sum: u64 = 0;
    for _ in 0..times {
        let (root, blocks) = planned(alloc, &rows)?;
        sum = sum
            .wrapping_add(root.as_slice().len() as u64)
            .wrapping_add(blocks.len() as u64);
    }
    Some(sum)
}

/// Hashes each key once.
fn key_sum(rows: &Rows) -> u64 {
    let mut sum: u64 = 0;
    for row in rows.as_slice() {
        sum = sum.wrapping_add(Sha256Keys.hash(row.key.as_str().as_bytes())[0] as u64);
    }
    sum
}

/// Hashes each block once.
fn block_sum(blocks: &[NamedBlock]) -> u64 {
    let mut sum: u64 = 0;
    for block in blocks {
        sum = sum.wrapping_add(block_id(block.block().as_slice()).0[0] as u64);
    }
    sum
}

/// The keys and those blocks alone are hashed.
pub(crate) fn hash_all(alloc: Global, bytes: &[u8], times: u32) -> Option<u64> {
    let rows = rows_of(alloc, bytes)?;
    let (_, blocks) = planned(alloc, &rows)?;
    let mut sum: u64 = 0;
    for _ in 0..times {
        sum = sum
            .wrapping_add(key_sum(&rows))
            .wrapping_add(block_sum(&blocks));
    }
    Some(sum)
}
