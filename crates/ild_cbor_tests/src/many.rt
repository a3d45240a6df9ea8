//! Changes of lists and maps of 20,000 parts. What is wanted is spelled part by part (RFC 8949, section 3).
use crate::splice::{gives, root, with_entry, with_item, without_entry, without_item};
use ild_cbor::{Kind, Node};
use ild_data::Octets;
use ild_splice::{insert_pair, replace};
use std::alloc::{AllocError, Global};
use std::test::Fail;

/// The head of a list of 20,000, and those of one item more and of one less.
const LIST: &[u8] = b"\x99\x4e\x20";

const LONGER: &[u8] = b"\x99\x4e\x21";

const SHORTER: &[u8] = b"\x99\x4e\x1f";

/// The head of a map of 20,000, and that of one entry less.
const MAP: &[u8] = b"\xb9\x4e\x20";

const SMALLER: &[u8] = b"\xb9\x4e\x1f";

/// 100
const HUNDRED: &[u8] = b"\x18\x64";

/// Appends the numbers from one on up to another, each in three bytes.
fn add_numbers(block: &mut Vec<u8>, from: u16, to: u16) -> Result<(), AllocError> {
    for n in from..to {
        block.push(0x19)?;
        block.extend_from_slice(&n.to_be_bytes())?;
    }
    Ok(())
}

/// A list with this head: the numbers from 1,000 up to one, what is given, and the numbers from another on up to 21,000.
fn list(
    alloc: Global,
    head: &[u8],
    front: u16,
    given: &[u8],
    behind: u16,
) -> Result<Vec<u8>, AllocError> {
    let mut block = head.to_vec(alloc)?;
    add_numbers(&mut block, 1_000, front)?;
    block.extend_from_slice(given)?;
    add_numbers(&mut block, behind, 21_000)?;
    Ok(block)
}

/// Appends entries, whose keys are the numbers from one on up to another, with five digits, and whose values are null.
fn add_entries(alloc: Global, block: &mut Vec<u8>, from: u16, to: u16) -> Result<(), AllocError> {
    for n in from..to {
        let key = format!(in alloc; "{n}")?;
        block.push(0x65)?;
        block.extend_from_slice(key.as_str().as_bytes())?;
        block.push(0xf6)?;
    }
    Ok(())
}

/// A map with this head: the entries from 10,000 up to one, what is given, and the entries from another on up to 30,000.
fn map(
    alloc: Global,
    head: &[u8],
    front: u16,
    given: &[u8],
    behind: u16,
) -> Result<Vec<u8>, AllocError> {
    let mut block = head.to_vec(alloc)?;
    add_entries(alloc, &mut block, 10_000, front)?;
    block.extend_from_slice(given)?;
    add_entries(alloc, &mut block, behind, 30_000)?;
    Ok(block)
}

/// A list with a pair more, where it has the place.
fn with_pair(alloc: Global, list: &Node<'_>, at: u64, key: &str, new: &Node<'_>) -> Option<Octets> {
    let (Kind::List, Some(count)) = (list.kind(), list.count()) else {
        return None;
    };
    if at > count {
        return None;
    }
    insert_pair(alloc, list, at, key, new).ok()
}

/// A pair of a key of 70,000 letters and 100.
fn pair(alloc: Global, key: &str) -> Result<Vec<u8>, AllocError> {
    let mut item = b"\x82\x7a\x00\x01\x11\x70".to_vec(alloc)?;
    item.extend_from_slice(key.as_bytes())?;
    item.extend_from_slice(HUNDRED)?;
    Ok(item)
}

#[test]
fn pairs(rt: HostRuntime) -> Result<(), Fail> {
    let alloc = rt.alloc();
    let mut key = String::new(alloc);
    for _ in 0..7_000 {
        key.push_str("abcdefghij")?;
    }
    let block = list(alloc, LIST, 1_000, b"", 1_000)?;
    let pair = pair(alloc, key.as_str())?;
    let (whole, new) = (root(&block)?, root(HUNDRED)?);
    gives(
        &rt,
        with_pair(alloc, &whole, 12_000, key.as_str(), &new),
        &list(alloc, LONGER, 13_000, &pair, 13_000)?,
    );
    gives(
        &rt,
        with_pair(alloc, &whole, 20_000, key.as_str(), &new),
        &list(alloc, LONGER, 21_000, &pair, 21_000)?,
    );
    gives(
        &rt,
        with_pair(alloc, &root(b"\x80")?, 0, "k", &new),
        b"\x81\x82\x61k\x18\x64",
    );
    Ok(())
}

#[test]
fn items(rt: HostRuntime) -> Result<(), Fail> {
    let alloc = rt.alloc();
    let block = list(alloc, LIST, 1_000, b"", 1_000)?;
    let (whole, new) = (root(&block)?, root(HUNDRED)?);
    let item = whole.item(12_000).ok_or("an item")?;
    gives(
        &rt,
        replace(alloc, &item, &new).ok(),
        &list(alloc, LIST, 13_000, HUNDRED, 13_001)?,
    );
    gives(
        &rt,
        with_item(alloc, &whole, 12_000, &new),
        &list(alloc, LONGER, 13_000, HUNDRED, 13_000)?,
    );
    gives(
        &rt,
        without_item(alloc, &whole, 12_000),
        &list(alloc, SHORTER, 13_000, b"", 13_001)?,
    );
    Ok(())
}

#[test]
fn entries(rt: HostRuntime) -> Result<(), Fail> {
    let alloc = rt.alloc();
    let more = map(alloc, MAP, 22_000, b"\x6522000\x18\x64", 22_001)?;
    let less = map(alloc, SMALLER, 22_000, b"", 22_001)?;
    gives(
        &rt,
        with_entry(alloc, &root(&less)?, "22000", &root(HUNDRED)?),
        &more,
    );
    gives(&rt, without_entry(alloc, &root(&more)?, "22000"), &less);
    Ok(())
}
