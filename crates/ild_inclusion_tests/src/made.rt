//! Proofs that are made over stores: which blocks they have, what is told of them, and why none is made.
use crate::blocks::{
    ABC, FOUR, FOUR_CHILD, NARROW, NARROW_CHILD, NARROW_LAST, NESTED, NESTED_CHILD, TO_LIST,
    TO_LONG_HEAD, TO_WIDE, WRONG, WRONG_CHILD,
};
use crate::told::{Row, is_answered, path_of, schema};
use ild_cbor::BlockWhy;
use ild_data::{KeyHash, Octets, PadKeys, Sha256Keys, block_id};
use ild_edges::MemStore;
use ild_inclusion::Proof;
use ild_inclusion_prove::prove;
use ild_node::HamtFault;
use ild_schema::Accepted;
use ild_view_doc::Doc;
use std::alloc::Global;
use std::process::Abort;
use std::test::Fail;

/// All blocks beneath roots.
const HELD: [&[u8]; 4] = [FOUR_CHILD, NESTED_CHILD, NARROW_CHILD, NARROW_LAST];

const MADE: [Row; 9] = [
    (
        "H",
        FOUR,
        &["\0\x02"],
        &[FOUR, FOUR_CHILD],
        ("here", 0, b"\x02"),
    ),
    (
        "H",
        FOUR,
        &["\0\x05"],
        &[FOUR, FOUR_CHILD],
        ("absent", 0, b""),
    ),
    ("H", FOUR, &["x"], &[FOUR], ("absent", 0, b"")),
    ("H", FOUR, &[], &[FOUR], ("here", 0, FOUR)),
    (
        "G",
        NESTED,
        &["\0\x02", "\0\x03"],
        &[NESTED, NESTED_CHILD, FOUR_CHILD],
        ("here", 0, b"\x03"),
    ),
    (
        "G",
        NESTED,
        &["\0\x02", "\0\x03", "\0"],
        &[NESTED, NESTED_CHILD, FOUR_CHILD],
        ("absent", 2, b""),
    ),
    (
        "G",
        NESTED,
        &["\0\x07", "x"],
        &[NESTED, NESTED_CHILD],
        ("absent", 0, b""),
    ),
    (
        "N",
        NARROW,
        &["\x01"],
        &[NARROW, NARROW_CHILD, NARROW_LAST],
        ("here", 0, b"\x02"),
    ),
    (
        "I",
        b"\x82\x05\x06",
        &["1"],
        &[b"\x82\x05\x06"],
        ("here", 0, b"\x06"),
    ),
];

const HASHED: [Row; 2] = [
    ("H", ABC, &["abc"], &[ABC], ("here", 0, b"\x01")),
    ("H", ABC, &["x"], &[ABC], ("absent", 0, b"")),
];

/// A declared type, the block of the root, a path, the block that is held, the one that is refused, and why.
type Refused = (
    &'static str,
    &'static [u8],
    &'static [&'static str],
    &'static [u8],
    &'static [u8],
    &'static str,
);

const REFUSED: [Refused; 5] = [
    ("H", FOUR, &["\0\x02"], FOUR, FOUR_CHILD, "missing"),
    ("H", WRONG, &["\0\x02"], WRONG_CHILD, WRONG_CHILD, "shape"),
    ("H", TO_LIST, &["\0"], b"\x80", b"\x80", "shape"),
    ("H", TO_LONG_HEAD, &["\0"], b"\x18\x17", b"\x18\x17", "cbor"),
    ("N", TO_WIDE, &["\0"], FOUR_CHILD, FOUR_CHILD, "shape"),
];

fn doc_of<'s>(alloc: Global, acc: &'s Accepted, name: &str, root: &[u8]) -> Option<Doc<'s>> {
    let ty = acc.type_named(name)?;
    if ty.0 >= acc.types() {
        return None;
    }
    Doc::of(alloc, acc, ty, Octets::of(alloc, root).ok()?).ok()
}

/// The proof of a path that is made over a store which holds these blocks, and in which the gets with these numbers fail.
fn made<H: KeyHash>(
    alloc: Global,
    doc: &Doc<'_>,
    path: &[&str],
    held: &[&[u8]],
    fails: &[u64],
    keys: &H,
) -> Option<Result<Proof, HamtFault>> {
    let mut store = MemStore::new(alloc, fails, &[]).ok()?;
    for block in held {
        store.add(block).ok()?;
    }
    let path = path_of(alloc, path)?;
    Some(prove(alloc, doc, &path, keys, &mut store))
}

fn has_blocks(proof: &Proof, wanted: &[&[u8]]) -> bool {
    let blocks = proof.blocks();
    if blocks.len() != wanted.len() {
        return false;
    }
    for i in 0..wanted.len() {
        if blocks[i].as_slice() != wanted[i] {
            return false;
        }
    }
    true
}

/// Whether the proof of a row is made of its blocks, and says what the row says.
fn is_made<H: KeyHash>(alloc: Global, acc: &Accepted, row: &Row, keys: &H) -> Option<bool> {
    let (name, root, path, blocks, want) = *row;
    let doc = doc_of(alloc, acc, name, root)?;
    let proof = made(alloc, &doc, path, &HELD, &[], keys)?.ok()?;
    if !has_blocks(&proof, blocks) {
        return Some(false);
    }
    is_answered(alloc, acc, name, root, path, &proof, keys, want)
}

fn all_made<H: KeyHash>(
    rt: &impl Abort,
    alloc: Global,
    table: &[Row],
    keys: &H,
) -> Result<(), Fail> {
    let acc = schema(alloc)?;
    for row in table {
        let so = is_made(alloc, &acc, row, keys);
        assert!(rt; so.ok_or("a proof")?, "{} {:?}", row.0, row.2);
    }
    Ok(())
}

fn why_of(why: &BlockWhy) -> &'static str {
    match why {
        BlockWhy::Missing => "missing",
        BlockWhy::Cbor(_) => "cbor",
        BlockWhy::Shape(_) => "shape",
    }
}

/// Whether no proof of a row is made, and its block is refused for its cause.
fn is_refused(alloc: Global, acc: &Accepted, row: &Refused) -> Option<bool> {
    let (name, root, path, held, block, cause) = *row;
    let doc = doc_of(alloc, acc, name, root)?;
    match made(alloc, &doc, path, &[held], &[], &PadKeys)? {
        Err(HamtFault::Block { id, why }) => {
            Some(id.0 == block_id(block).0 && why_of(&why) == cause)
        }
        _ => Some(false),
    }
}

/// Whether the get with a number fails, on the way of a key that two blocks beneath the root are on.
fn fails_at(alloc: Global, acc: &Accepted, number: u64) -> Option<bool> {
    let doc = doc_of(alloc, acc, "N", NARROW)?;
    match made(alloc, &doc, &["\x01"], &HELD, &[number], &PadKeys)? {
        Err(HamtFault::Store) => Some(true),
        Ok(_) => Some(false),
        Err(_) => None,
    }
}

#[test]
fn keys_hashed_by_padding(rt: HostRuntime) -> Result<(), Fail> {
    all_made(&rt, rt.alloc(), &MADE, &PadKeys)
}

#[test]
fn keys_hashed_by_sha2(rt: HostRuntime) -> Result<(), Fail> {
    all_made(&rt, rt.alloc(), &HASHED, &Sha256Keys)
}

#[test]
fn blocks_refused(rt: HostRuntime) -> Result<(), Fail> {
    let acc = schema(rt.alloc())?;
    for row in &REFUSED {
        let so = is_refused(rt.alloc(), &acc, row);
        assert!(rt; so.ok_or("a document")?, "{} {:?} {}", row.0, row.2, row.5);
    }
    Ok(())
}

#[test]
fn gets_that_fail(rt: HostRuntime) -> Result<(), Fail> {
    let acc = schema(rt.alloc())?;
    assert_eq!(rt; fails_at(rt.alloc(), &acc, 1), Some(true));
    assert_eq!(rt; fails_at(rt.alloc(), &acc, 2), Some(true));
    assert_eq!(rt; fails_at(rt.alloc(), &acc, 3), Some(false));
    Ok(())
}
