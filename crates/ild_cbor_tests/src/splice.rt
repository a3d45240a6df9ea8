//! The five changes of a block on its bytes. All bytes were spelled by hand by the rules of DAG-CBOR and RFC 8949.
use ild_cbor::{Kind, Node, check};
use ild_data::Octets;
use ild_splice::{SpliceErr, insert_entry, insert_item, remove_entry, remove_item, replace};
use std::alloc::Global;
use std::process::Abort;
use std::test::Fail;

/// The root of a block.
pub(crate) fn root(block: &[u8]) -> Result<Node<'_>, &'static str> {
    check(block).ok().ok_or("a block")
}

pub(crate) fn gives(rt: &impl Abort, made: Option<Octets>, block: &[u8]) {
    match made {
        Some(made) => assert_eq!(rt; made.as_slice(), block),
        None => assert!(rt; false),
    }
}

/// A list with one more item, where it has the place.
pub(crate) fn with_item(alloc: Global, list: &Node<'_>, at: u64, new: &Node<'_>) -> Option<Octets> {
    let (Kind::List, Some(count)) = (list.kind(), list.count()) else {
        return None;
    };
    if at > count {
        return None;
    }
    insert_item(alloc, list, at, new).ok()
}

/// A list without an item, where it has that.
pub(crate) fn without_item(alloc: Global, list: &Node<'_>, at: u64) -> Option<Octets> {
    let (Kind::List, Some(count)) = (list.kind(), list.count()) else {
        return None;
    };
    if at >= count {
        return None;
    }
    remove_item(alloc, list, at).ok()
}

/// A map with one more entry, where it has none of the key.
pub(crate) fn with_entry(
    alloc: Global,
    map: &Node<'_>,
    key: &str,
    new: &Node<'_>,
) -> Option<Octets> {
    let Kind::Map = map.kind() else {
        return None;
    };
    match map.entry(key) {
        Some(_) => None,
        None => insert_entry(alloc, map, key, new).ok(),
    }
}

/// A map without an entry, where it has that.
pub(crate) fn without_entry(alloc: Global, map: &Node<'_>, key: &str) -> Option<Octets> {
    let Kind::Map = map.kind() else {
        return None;
    };
    match map.entry(key) {
        Some(_) => remove_entry(alloc, map, key).ok(),
        None => None,
    }
}

/// {"a": [1, 2, [3]], "bb": {"x": 1, "zz": 2}, "cccc": true}
const BLOCK: &[u8] = b"\xa3\x61a\x83\x01\x02\x81\x03\x62bb\xa2\x61x\x01\x62zz\x02\x64cccc\xf5";

/// 100
const HUNDRED: &[u8] = b"\x18\x64";

#[test]
fn items(rt: HostRuntime) -> Result<(), Fail> {
    let alloc = rt.alloc();
    let new = root(HUNDRED)?;
    let list = root(BLOCK)?.entry("a").ok_or("a list")?;
    let two = list.item(1).ok_or("an item")?;
    gives(
        &rt,
        replace(alloc, &two, &new).ok(),
        b"\xa3\x61a\x83\x01\x18\x64\x81\x03\x62bb\xa2\x61x\x01\x62zz\x02\x64cccc\xf5",
    );
    gives(
        &rt,
        with_item(alloc, &list, 3, &new),
        b"\xa3\x61a\x84\x01\x02\x81\x03\x18\x64\x62bb\xa2\x61x\x01\x62zz\x02\x64cccc\xf5",
    );
    gives(
        &rt,
        without_item(alloc, &list, 2),
        b"\xa3\x61a\x82\x01\x02\x62bb\xa2\x61x\x01\x62zz\x02\x64cccc\xf5",
    );
    Ok(())
}

#[test]
fn entries(rt: HostRuntime) -> Result<(), Fail> {
    let alloc = rt.alloc();
    let new = root(HUNDRED)?;
    let whole = root(BLOCK)?;
    let map = whole.entry("bb").ok_or("a map")?;
    gives(
        &rt,
        with_entry(alloc, &map, "y", &new),
        b"\xa3\x61a\x83\x01\x02\x81\x03\x62bb\xa3\x61x\x01\x61y\x18\x64\x62zz\x02\x64cccc\xf5",
    );
    gives(
        &rt,
        with_entry(alloc, &whole, "zzzz", &new),
        b"\xa4\x61a\x83\x01\x02\x81\x03\x62bb\xa2\x61x\x01\x62zz\x02\x64cccc\xf5\x64zzzz\x18\x64",
    );
    gives(
        &rt,
        without_entry(alloc, &whole, "bb"),
        b"\xa2\x61a\x83\x01\x02\x81\x03\x64cccc\xf5",
    );
    Ok(())
}

/// A list of 23 zeros, and of 24: the head has one byte more.
const ZEROS: &[u8] = b"\x97\0\0\0\0\0\0\0\0\0\0\0\0\0\0\0\0\0\0\0\0\0\0\0";

const MORE_ZEROS: &[u8] = b"\x98\x18\0\0\0\0\0\0\0\0\0\0\0\0\0\0\0\0\0\0\0\0\0\0\0\0";

#[test]
fn heads_grow_and_shrink(rt: HostRuntime) -> Result<(), Fail> {
    let alloc = rt.alloc();
    let zero = root(b"\0")?;
    gives(&rt, with_item(alloc, &root(ZEROS)?, 23, &zero), MORE_ZEROS);
    gives(&rt, without_item(alloc, &root(MORE_ZEROS)?, 23), ZEROS);
    Ok(())
}

#[test]
fn keys_keep_their_order(rt: HostRuntime) -> Result<(), Fail> {
    let alloc = rt.alloc();
    let one = root(b"\x01")?;
    gives(
        &rt,
        with_entry(alloc, &root(b"\xa1\x62aa\x02")?, "b", &one),
        b"\xa2\x61b\x01\x62aa\x02",
    );
    let part = root(b"\xa2\x61b\x01\x62aa\x02")?.entry("b").ok_or("one")?;
    let more = root(b"\x18\x18")?;
    gives(
        &rt,
        replace(alloc, &part, &more).ok(),
        b"\xa2\x61b\x18\x18\x62aa\x02",
    );
    gives(
        &rt,
        without_entry(alloc, &root(b"\xa2\x61b\x18\x18\x62aa\x02")?, "aa"),
        b"\xa1\x61b\x18\x18",
    );
    Ok(())
}

/// A list of 1 and of so many bytes that the block is one byte short of the longest.
fn nearly_longest(alloc: Global) -> Result<Vec<u8>, Fail> {
    let mut block = Vec::new(alloc);
    block.extend_from_slice(b"\x82\x01\x5a\x00\x3f\xff\xf8")?;
    block.resize(4_194_303, 7)?;
    Ok(block)
}

#[test]
fn the_longest_block(rt: HostRuntime) -> Result<(), Fail> {
    let alloc = rt.alloc();
    let block = nearly_longest(alloc)?;
    let one = root(&block)?.item(0).ok_or("an item")?;
    let made = replace(alloc, &one, &root(HUNDRED)?).ok().ok_or("made")?;
    assert_eq!(rt; made.as_slice().len(), 4_194_304);
    let longer = replace(alloc, &one, &root(b"\x19\x01\x00")?);
    assert_eq!(rt; longer.err(), Some(SpliceErr::Size));
    Ok(())
}
