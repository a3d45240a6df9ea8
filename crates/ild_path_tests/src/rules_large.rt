//! What the table of edits allows in holders of many thousand parts, which keys of many parts fit, and how much room is left deep down: told by
//! hand.
use crate::rules::{is_allowed, leaves_holes};
use crate::seen::{path_of, view_of};
use ild_cbor::check;
use ild_compile::compile;
use ild_path_room::room_left;
use ild_schema::Accepted;
use std::alloc::{AllocError, Global};
use std::test::Fail;

/// How many fields a tuple has.
const FIELDS: u32 = 1_000;

/// A tuple of optional fields, lists, maps, and maps whose keys are texts of pairs.
fn source(alloc: Global) -> Result<String, AllocError> {
    let mut text = String::new(alloc);
    text.push_str(
        "type L [Int] type M {String:Int} type K {String:String} representation stringpairs { innerDelim \"-\" \
         entryDelim \"+\" } type MK {K:Int} type T struct {",
    )?;
    for n in 0..FIELDS {
        let field = format!(in alloc; " f{n} optional Int")?;
        text.push_str(field.as_str())?;
    }
    text.push_str(" } representation tuple")?;
    Ok(text)
}

/// The block of a list with this head, of so many ones.
fn list(alloc: Global, head: &[u8], count: usize) -> Result<Vec<u8>, AllocError> {
    let mut block = head.to_vec(alloc)?;
    for _ in 0..count {
        block.push(0x01)?;
    }
    Ok(block)
}

/// The block of a map of 20,000 ones, whose keys are the numbers from 10,000 on.
fn map(alloc: Global) -> Result<Vec<u8>, AllocError> {
    let mut block = b"\xb9\x4e\x20".to_vec(alloc)?;
    for n in 10_000..30_000u32 {
        let key = format!(in alloc; "{n}")?;
        block.push(0x65)?;
        block.extend_from_slice(key.as_str().as_bytes())?;
        block.push(0x01)?;
    }
    Ok(block)
}

/// Whether the table of edits allows this at some segments, in a block of a type.
fn all_allowed(
    alloc: Global,
    acc: &Accepted,
    name: &str,
    block: &[u8],
    rows: &[(&str, &str)],
) -> Option<bool> {
    let view = view_of(alloc, acc, name, check(block).ok()?)?;
    for row in rows {
        if !is_allowed(alloc, &view, row.0, row.1)? {
            return Some(false);
        }
    }
    Some(true)
}

/// Segments of the list, with what may be done there.
const IN_LIST: [(&str, &str); 5] = [
    ("19999", "Int Int ok k"),
    ("12345", "Int Int ok k"),
    ("20000", "- Int path k"),
    ("-", "- Int path k"),
    ("20001", "- - path k"),
];

const IN_MAP: [(&str, &str); 4] = [
    ("10000", "Int - ok k"),
    ("29999", "Int - ok k"),
    ("9999", "Int Int path k"),
    ("30000", "Int Int path k"),
];

const IN_TUPLE: [(&str, &str); 4] = [
    ("f0", "Int - ok k"),
    ("f799", "Int - ok k"),
    ("f800", "Int Int path k"),
    ("f1000", "- - path k"),
];

#[test]
fn of_the_table(rt: HostRuntime) -> Result<(), Fail> {
    let alloc = rt.alloc();
    let source = source(alloc)?;
    let acc = compile(alloc, source.as_str().as_bytes())
        .ok()
        .ok_or("a schema")?;
    let block = list(alloc, b"\x99\x4e\x20", 20_000)?;
    assert!(rt; all_allowed(alloc, &acc, "L", &block, &IN_LIST) == Some(true));
    let block = map(alloc)?;
    assert!(rt; all_allowed(alloc, &acc, "M", &block, &IN_MAP) == Some(true));
    let block = list(alloc, b"\x99\x03\x20", 800)?;
    assert!(rt; all_allowed(alloc, &acc, "T", &block, &IN_TUPLE) == Some(true));
    Ok(())
}

/// The text of 4,000 pairs of numbers and a letter, and of one pair more.
fn key(alloc: Global, last: &str) -> Result<String, AllocError> {
    let mut text = String::new(alloc);
    for n in 10_000..14_000u32 {
        let pair = format!(in alloc; "{n}-x+")?;
        text.push_str(pair.as_str())?;
    }
    text.push_str(last)?;
    Ok(text)
}

#[test]
fn of_long_keys(rt: HostRuntime) -> Result<(), Fail> {
    let alloc = rt.alloc();
    let source = source(alloc)?;
    let acc = compile(alloc, source.as_str().as_bytes())
        .ok()
        .ok_or("a schema")?;
    for (last, want) in [
        ("14000-", "Int Int path k"),
        ("13999-", "Int Int path -"),
        ("14000", "Int Int path -"),
    ] {
        let key = key(alloc, last)?;
        let told = all_allowed(alloc, &acc, "MK", b"\xa0", &[(key.as_str(), want)]);
        assert!(rt; told == Some(true), "{last}");
    }
    Ok(())
}

/// Fields of the tuple whose first 800 are there, with where a hole is left.
const HOLES: [(&str, &str); 6] = [
    ("f0", "-g"),
    ("f798", "-g"),
    ("f799", "--"),
    ("f800", "--"),
    ("f801", "c-"),
    ("f999", "c-"),
];

fn are_holes(alloc: Global, acc: &Accepted) -> Option<bool> {
    let block = list(alloc, b"\x99\x03\x20", 800).ok()?;
    let view = view_of(alloc, acc, "T", check(&block).ok()?)?;
    for (segment, want) in HOLES {
        if !leaves_holes(&view, segment, want) {
            return Some(false);
        }
    }
    Some(true)
}

#[test]
fn of_holes(rt: HostRuntime) -> Result<(), Fail> {
    let alloc = rt.alloc();
    let source = source(alloc)?;
    let acc = compile(alloc, source.as_str().as_bytes())
        .ok()
        .ok_or("a schema")?;
    assert!(rt; are_holes(alloc, &acc) == Some(true));
    Ok(())
}

/// How many levels are left to a part below so many lists of one list each.
fn room(alloc: Global, acc: &Accepted, lists: usize) -> Option<u32> {
    let mut block = Vec::new(alloc);
    let mut segments = Vec::new(alloc);
    for _ in 0..lists {
        block.push(0x81).ok()?;
        segments.push("0").ok()?;
    }
    block.push(0x80).ok()?;
    let view = view_of(alloc, acc, "D", check(&block).ok()?)?;
    room_left(alloc, &view, &path_of(alloc, &segments)?, 96).ok()?
}

#[test]
fn of_rooms(rt: HostRuntime) -> Result<(), Fail> {
    let acc = compile(rt.alloc(), b"type D [D]").ok().ok_or("a schema")?;
    for (lists, left) in [(1, 95), (50, 46), (95, 1)] {
        assert!(rt; room(rt.alloc(), &acc, lists) == Some(left), "{lists}");
    }
    Ok(())
}
