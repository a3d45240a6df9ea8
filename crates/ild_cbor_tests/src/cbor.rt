//! Blocks that the standards and other encoders give, and the accessors on one that has all kinds in it.
use ild_cbor::CborKind::*;
use ild_cbor::{CborFault, CborKind, Kind, Node, check};
use std::alloc::Global;
use std::test::Fail;

// {"b": true, "i": -2^63, "l": [1, 24, 256, 65536, 2^32, 2^64-1, false], "m": {"a": [], "bb": {}}, "n": null,
// "t": "Größe", "by": h'0102', "ln": the CID 01 71 12 20 00*32}, written by Python from RFC 8949
const ALL: [u8; 121] = [
    0xa8, 0x61, 0x62, 0xf5, 0x61, 0x69, 0x3b, 0x7f, 0xff, 0xff, 0xff, 0xff, 0xff, 0xff, 0xff, 0x61,
    0x6c, 0x87, 0x01, 0x18, 0x18, 0x19, 0x01, 0x00, 0x1a, 0x00, 0x01, 0x00, 0x00, 0x1b, 0x00, 0x00,
    0x00, 0x01, 0x00, 0x00, 0x00, 0x00, 0x1b, 0xff, 0xff, 0xff, 0xff, 0xff, 0xff, 0xff, 0xff, 0xf4,
    0x61, 0x6d, 0xa2, 0x61, 0x61, 0x80, 0x62, 0x62, 0x62, 0xa0, 0x61, 0x6e, 0xf6, 0x61, 0x74, 0x67,
    0x47, 0x72, 0xc3, 0xb6, 0xc3, 0x9f, 0x65, 0x62, 0x62, 0x79, 0x42, 0x01, 0x02, 0x62, 0x6c, 0x6e,
    0xd8, 0x2a, 0x58, 0x25, 0x00, 0x01, 0x71, 0x12, 0x20, 0x00, 0x00, 0x00, 0x00, 0x00, 0x00, 0x00,
    0x00, 0x00, 0x00, 0x00, 0x00, 0x00, 0x00, 0x00, 0x00, 0x00, 0x00, 0x00, 0x00, 0x00, 0x00, 0x00,
    0x00, 0x00, 0x00, 0x00, 0x00, 0x00, 0x00, 0x00, 0x00,
];

/// Whether bytes are refused for this fault first.
fn is_refused(bytes: &[u8], kind: CborKind, at: usize) -> bool {
    match check(bytes) {
        Ok(_) => false,
        Err(fault) => fault.kind == kind && fault.at == at,
    }
}

/// Blocks that are refused, each with its first fault: one for each kind but the length and the depth, and counts that no block can hold. More of them are cases of `show`
/// (`NO_BLOCKS` of tests/conformance/tables.py), and so is each front of that block.
const FAULTS: [(&[u8], CborKind, usize); 14] = [
    (&[0xa1, 0x61, 0x61], Short, 3),
    (b"\x9b\xff\xff\xff\xff\xff\xff\xff\xff", Short, 9),
    (b"\xbb\xff\xff\xff\xff\xff\xff\xff\xff", Short, 9),
    (b"\x5b\xff\xff\xff\xff\xff\xff\xff\xff", Short, 9),
    (&[0xf6, 0xf6], Rest, 1),
    (&[0x81, 0x18, 0x17], Head, 1),
    (&[0xa1, 0xff], KeyKind, 1),
    (&[0xa2, 0x61, 0x61, 2, 0x61, 0x61, 1], KeyOrder, 4),
    (&[0xd8, 43, 0x40], Tag, 0),
    (&[0xd8, 42, 0x40], Link, 0),
    (&[0x81, 0x62, 0xc3, 0x28], Utf8, 1),
    (&[0xf9, 0x3c, 0x00], Float, 0),
    (&[0xf7], Simple, 0),
    (&[0x3b, 0x80, 0, 0, 0, 0, 0, 0, 0], Range, 0),
];

#[test]
fn faults(rt: HostRuntime) {
    for (bytes, kind, at) in &FAULTS {
        assert!(rt; is_refused(bytes, *kind, *at), "at {at}");
    }
}

/// The root block of an empty club: a name, and a HAMT without entries.
const CLUB: &[u8] =
    b"\xa2dnamedKiteeusers\xa3dhamt\x82X \0\0\0\0\0\0\0\0\0\0\0\0\0\0\0\0\0\0\0\0\0\0\0\0\0\0\0\0\0\0\0\0\x80ghashAlg\x12jbucketSize\x03";

/// Whether each front of a block is short at its end.
fn are_short(block: &[u8]) -> bool {
    let mut short = check(block).is_ok();
    for length in 0..block.len() {
        short &= match block.get(..length) {
            Some(front) => is_refused(front, Short, length),
            None => false,
        };
    }
    short
}

/// So many lists in one another, around a zero.
fn nested(alloc: Global, count: usize) -> Option<Vec<u8>> {
    let mut lists = Vec::new(alloc);
    lists.resize(count, 0x81).ok()?;
    lists.push(0).ok()?;
    Some(lists)
}

/// Whether 96 levels are a block, and one more is too deep.
fn is_deepest(alloc: Global) -> Option<bool> {
    let last = nested(alloc, 96)?;
    let more = nested(alloc, 97)?;
    Some(check(&last).is_ok() && is_refused(&more, Depth, 96))
}

/// Whether a byte more than a block may have is told before anything that stands in it.
fn is_longest(alloc: Global) -> Option<bool> {
    let mut long = Vec::new(alloc);
    long.resize(4_194_305, 0).ok()?;
    Some(is_refused(&long, Size, 4_194_304))
}

#[test]
fn fronts_levels_and_length(rt: HostRuntime) -> Result<(), Fail> {
    let deepest = is_deepest(rt.alloc()) == Some(true);
    let longest = is_longest(rt.alloc()) == Some(true);
    assert!(rt; deepest && longest && are_short(CLUB));
    Ok(())
}

/// An entry of a block.
fn entry<'b>(block: &'b [u8], key: &str) -> Result<Node<'b>, Fail> {
    let root = check(block).ok().ok_or("a block")?;
    Ok(root.entry(key).ok_or("an entry")?)
}

fn number(node: Option<Node<'_>>) -> Option<i128> {
    Some(node?.int()?.get())
}

#[test]
fn roots(rt: HostRuntime) -> Result<(), Fail> {
    let root = check(&ALL).ok().ok_or("a block")?;
    assert_eq!(rt; root.kind(), Kind::Map);
    assert_eq!(rt; root.count(), Some(8));
    assert_eq!(rt; root.block().len(), 121);
    assert!(rt; root.item(0).is_none());
    assert!(rt; root.entry("ll").is_none());
    Ok(())
}

#[test]
fn items(rt: HostRuntime) -> Result<(), Fail> {
    let list = entry(&ALL, "l")?;
    assert_eq!(rt; list.span(), (17, 31));
    assert_eq!(rt; list.count(), Some(7));
    let wanted = [1, 24, 256, 65536, 0x1_0000_0000, 0xffff_ffff_ffff_ffff];
    for (i, want) in (0..).zip(wanted) {
        assert_eq!(rt; number(list.item(i)), Some(want));
    }
    assert!(rt; list.item(7).is_none());
    Ok(())
}

#[test]
fn scalars(rt: HostRuntime) -> Result<(), Fail> {
    let last = entry(&ALL, "l")?.item(6).ok_or("false")?;
    assert_eq!(rt; last.boolean(), Some(false));
    assert_eq!(rt; entry(&ALL, "t")?.text(), Some("Größe"));
    assert_eq!(rt; entry(&ALL, "by")?.bytes(), Some([1, 2].as_slice()));
    let least = number(Some(entry(&ALL, "i")?));
    assert_eq!(rt; least, Some(-0x8000_0000_0000_0000));
    Ok(())
}

#[test]
fn spellings(rt: HostRuntime) -> Result<(), Fail> {
    let cid = entry(&ALL, "ln")?.link().ok_or("a link")?;
    assert_eq!(rt; cid.whole(), &ALL[85..121]);
    assert_eq!(rt; entry(&ALL, "m")?.spelling(), &ALL[50..58]);
    Ok(())
}

#[test]
fn all_parts(rt: HostRuntime) -> Result<(), Fail> {
    let list = entry(&ALL, "l")?;
    assert_eq!(rt; list.items().ok_or("items")?.count(), 7);
    let root = check(&ALL).ok().ok_or("a block")?;
    let mut keys = 0;
    for (key, value) in root.entries().ok_or("entries")? {
        assert_eq!(rt; entry(&ALL, key)?.span(), value.span());
        keys = key.len().saturating_add(keys);
    }
    assert_eq!(rt; keys, 10);
    Ok(())
}
