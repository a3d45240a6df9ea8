//! Proofs with every bit of a block turned over, and with the longest way.
use crate::blocks::{FOUR, FOUR_CHILD, NARROW_LAST};
use crate::told::{is_answered, proof_of, schema};
use ild_data::{BlockId, Octets, PadKeys, block_id};
use ild_inclusion::Proof;
use ild_schema::Accepted;
use std::alloc::Global;
use std::test::Fail;

const WIDE_MAP: &[u8] =
    b"\x58\x20\x01\0\0\0\0\0\0\0\0\0\0\0\0\0\0\0\0\0\0\0\0\0\0\0\0\0\0\0\0\0\0\0";

const NARROW_MAP: &[u8] = b"\x41\x01";

/// A block with one bit turned over.
fn turned(alloc: Global, block: &[u8], at: usize, bit: u8) -> Option<Vec<u8>> {
    let mut other = block.to_vec(alloc).ok()?;
    match other.get_mut(at) {
        Some(byte) => {
            *byte ^= bit;
        }
        None => return None,
    }
    Some(other)
}

/// The proof of two blocks, of which the first or the second is another.
fn with_other(alloc: Global, first: bool, other: &[u8]) -> Option<Proof> {
    if first {
        proof_of(alloc, &[other, FOUR_CHILD])
    } else {
        proof_of(alloc, &[FOUR, other])
    }
}

/// Whether a proof of two blocks, of which one has a bit turned over, is answered so.
fn is_refused(
    alloc: Global,
    acc: &Accepted,
    first: bool,
    at: usize,
    bit: u8,
    want: (&str, usize, &[u8]),
) -> Option<bool> {
    let block = if first { FOUR } else { FOUR_CHILD };
    let other = turned(alloc, block, at, bit)?;
    let proof = with_other(alloc, first, &other)?;
    is_answered(alloc, acc, "H", FOUR, &["\0\x02"], &proof, &PadKeys, want)
}

#[test]
fn a_bit_of_the_root(rt: HostRuntime) -> Result<(), Fail> {
    let acc = schema(rt.alloc())?;
    for at in 0..FOUR.len() {
        for bit in [1, 2, 4, 8, 16, 32, 64, 128] {
            let so = is_refused(rt.alloc(), &acc, true, at, bit, ("root", 0, b""));
            assert_eq!(rt; so, Some(true));
        }
    }
    Ok(())
}

#[test]
fn a_bit_of_the_child(rt: HostRuntime) -> Result<(), Fail> {
    let acc = schema(rt.alloc())?;
    for at in 0..FOUR_CHILD.len() {
        for bit in [1, 2, 4, 8, 16, 32, 64, 128] {
            let so = is_refused(rt.alloc(), &acc, false, at, bit, ("missing", 1, b""));
            assert_eq!(rt; so, Some(true));
        }
    }
    Ok(())
}

/// The map of a node that has its first slot alone, of eight bits a level or of three.
fn first_slot(narrow: bool) -> &'static [u8] {
    if narrow { NARROW_MAP } else { WIDE_MAP }
}

/// The node whose first slot is the link to a block.
fn over(alloc: Global, narrow: bool, child: &BlockId) -> Option<Vec<u8>> {
    let mut block = Vec::new(alloc);
    block.extend_from_slice(b"\x82").ok()?;
    block.extend_from_slice(first_slot(narrow)).ok()?;
    block
        .extend_from_slice(b"\x81\xd8\x2a\x58\x25\x00\x01\x71\x12\x20")
        .ok()?;
    block.extend_from_slice(&child.0).ok()?;
    Some(block)
}

/// The root map over a root node.
fn root_over(alloc: Global, narrow: bool, node: &[u8]) -> Option<Vec<u8>> {
    let size: &[u8] = if narrow { b"\x01" } else { b"\x03" };
    let mut root = Vec::new(alloc);
    root.extend_from_slice(b"\xa3\x64hamt").ok()?;
    root.extend_from_slice(node).ok()?;
    root.extend_from_slice(b"\x67hashAlg\x12\x6abucketSize")
        .ok()?;
    root.extend_from_slice(size).ok()?;
    Some(root)
}

/// So many nodes, each over the next one at its first slot, from the top down; the last is over this one. The first is in a root map.
fn chain(alloc: Global, narrow: bool, last: &[u8], count: usize) -> Option<Vec<Octets>> {
    let mut up = Vec::new(alloc);
    let mut id = block_id(last);
    for i in 0..count {
        let node = over(alloc, narrow, &id)?;
        let block = if i + 1 == count {
            root_over(alloc, narrow, &node)?
        } else {
            node
        };
        id = block_id(&block);
        up.push(Octets::from_vec(block)).ok()?;
    }
    up.reverse();
    Some(up)
}

/// Whether the proof of a key of 32 bytes 0 that goes through so many nodes is answered so.
fn is_so(
    alloc: Global,
    acc: &Accepted,
    narrow: bool,
    count: usize,
    want: (&str, usize, &[u8]),
) -> Option<bool> {
    let key = "\0\0\0\0\0\0\0\0\0\0\0\0\0\0\0\0\0\0\0\0\0\0\0\0\0\0\0\0\0\0\0\0";
    let last = if narrow { NARROW_LAST } else { FOUR_CHILD };
    let name = if narrow { "N" } else { "H" };
    let blocks = chain(alloc, narrow, last, count)?;
    let mut proof = Proof::new(alloc);
    for block in &blocks {
        proof.push(block.copy().ok()?).ok()?;
    }
    proof.push(Octets::of(alloc, last).ok()?).ok()?;
    let root = blocks.first()?;
    is_answered(
        alloc,
        acc,
        name,
        root.as_slice(),
        &[key],
        &proof,
        &PadKeys,
        want,
    )
}

#[test]
fn a_link_at_the_last_level(rt: HostRuntime) -> Result<(), Fail> {
    let acc = schema(rt.alloc())?;
    let last = is_so(rt.alloc(), &acc, false, 31, ("absent", 0, b""));
    assert_eq!(rt; last, Some(true));
    let beyond = is_so(rt.alloc(), &acc, false, 32, ("shape", 31, b""));
    assert_eq!(rt; beyond, Some(true));
    Ok(())
}

#[test]
fn a_link_at_the_last_level_of_three_bits(rt: HostRuntime) -> Result<(), Fail> {
    let acc = schema(rt.alloc())?;
    let last = is_so(rt.alloc(), &acc, true, 84, ("absent", 0, b""));
    assert_eq!(rt; last, Some(true));
    let beyond = is_so(rt.alloc(), &acc, true, 85, ("shape", 84, b""));
    assert_eq!(rt; beyond, Some(true));
    Ok(())
}
