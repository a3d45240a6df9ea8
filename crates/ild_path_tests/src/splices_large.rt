//! Holders in large blocks that an edit replaces as a whole, by large items. The blocks that are wanted are spelled part by part (DAG-CBOR).
use crate::seen::{path_of, view_of};
use ild_cbor::check;
use ild_compile::compile;
use ild_data::Octets;
use ild_path_block::{PartEdit, Spliced, spliced};
use std::alloc::{AllocError, Global};
use std::test::Fail;

const SRC: &str =
    "type Q {String:String} representation stringpairs { innerDelim \"=\" entryDelim \"&\" } type Dot \
     struct { x Int (rename \"y\") } type K union { | Dot \"dot\" | Int \"int\" } representation keyed \
     type L [K] type W struct { q Q }";

/// How many items a list has, and its head.
const MANY: usize = 20_000;

const HEAD: &[u8] = b"\x99\x4e\x20";

const DOT: &[u8] = b"\xa1cdot\xa1ay\x01";

/// The block of a list of dots, of which one is another item.
fn list(alloc: Global, place: usize, item: &[u8]) -> Result<Vec<u8>, AllocError> {
    let mut block = HEAD.to_vec(alloc)?;
    for i in 0..MANY {
        let next = if i == place { item } else { DOT };
        block.extend_from_slice(next)?;
    }
    Ok(block)
}

/// A map of one entry, whose value is a text of one pair.
const SHORT: &[u8] = b"\xa1aqca=1";

/// The same map, with the pair of `a` and 100,000 times a letter.
fn map_of_pair(alloc: Global) -> Result<Vec<u8>, AllocError> {
    let mut block = b"\xa1aq\x7a\x00\x01\x86\xa2a=".to_vec(alloc)?;
    block.resize(100_010, b'x')?;
    Ok(block)
}

/// The block in which the part at a path of a block is set, which replaces a holder by this item.
fn replaced(
    alloc: Global,
    name: &str,
    block: &[u8],
    path: &[&str],
    part: &[u8],
    item: &[u8],
) -> Option<Octets> {
    let acc = compile(alloc, SRC.as_bytes()).ok()?;
    let view = view_of(alloc, &acc, name, check(block).ok()?)?;
    let path = path_of(alloc, path)?;
    let edit = PartEdit::Set(check(part).ok()?);
    match spliced(alloc, &view, &path, &edit).ok()? {
        Some(Spliced::Holder(held)) => held.block_with(alloc, item).ok(),
        _ => None,
    }
}

/// Whether a block was made, and is this one.
fn is_block(made: Option<Octets>, want: &[u8]) -> bool {
    match made {
        Some(block) => block.as_slice() == want,
        None => false,
    }
}

#[test]
fn of_an_item_of_many(rt: HostRuntime) -> Result<(), Fail> {
    let alloc = rt.alloc();
    let block = list(alloc, 0, DOT)?;
    let made = replaced(
        alloc,
        "L",
        &block,
        &["12345", "Int"],
        b"\x05",
        b"\xa1cint\x05",
    );
    assert!(rt; is_block(made, &list(alloc, 12_345, b"\xa1cint\x05")?));
    Ok(())
}

#[test]
fn of_a_long_text(rt: HostRuntime) -> Result<(), Fail> {
    let alloc = rt.alloc();
    let long = map_of_pair(alloc)?;
    let text = long.get(3..).ok_or("a text")?;
    let made = replaced(alloc, "W", &long, &["q", "a"], b"a1", b"ca=1");
    assert!(rt; is_block(made, SHORT));
    let made = replaced(alloc, "W", SHORT, &["q", "a"], b"a2", text);
    assert!(rt; is_block(made, &long));
    Ok(())
}
