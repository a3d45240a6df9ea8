//! What proofs say, and what is wrong first, worked out by hand.
use crate::blocks::{
    ABC, FOUR, FOUR_CHILD, NARROW, NARROW_CHILD, NARROW_LAST, NESTED, NESTED_CHILD, TO_LIST,
    TO_LONG_HEAD, TO_WIDE, WRONG, WRONG_CHILD,
};
use crate::told::{Row, is_answered, proof_of, schema};
use ild_data::{KeyHash, PadKeys, Sha256Keys};
use std::alloc::Global;
use std::process::Abort;
use std::test::Fail;

const OF_FOUR: [Row; 12] = [
    (
        "H",
        FOUR,
        &["\0\x02"],
        &[FOUR, FOUR_CHILD],
        ("here", 0, b"\x02"),
    ),
    ("H", FOUR, &["\0\x02"], &[FOUR], ("missing", 1, b"")),
    (
        "H",
        FOUR,
        &["\0\x02"],
        &[FOUR, FOUR_CHILD, FOUR_CHILD],
        ("extra", 2, b""),
    ),
    (
        "H",
        FOUR,
        &["\0\x02"],
        &[FOUR_CHILD, FOUR],
        ("root", 0, b""),
    ),
    ("H", FOUR, &["\0\x02"], &[], ("empty", 0, b"")),
    ("H", FOUR, &["\0\x02"], &[FOUR, FOUR], ("missing", 1, b"")),
    (
        "H",
        FOUR,
        &["\0\x05"],
        &[FOUR, FOUR_CHILD],
        ("absent", 0, b""),
    ),
    ("H", FOUR, &["x"], &[FOUR], ("absent", 0, b"")),
    ("H", FOUR, &["x"], &[FOUR, FOUR_CHILD], ("extra", 1, b"")),
    (
        "H",
        FOUR,
        &["\0\x02", "y"],
        &[FOUR, FOUR_CHILD],
        ("absent", 1, b""),
    ),
    ("H", FOUR, &[], &[FOUR], ("here", 0, FOUR)),
    ("H", FOUR, &[], &[FOUR, FOUR_CHILD], ("extra", 1, b"")),
];

const NESTED_ONES: [Row; 10] = [
    (
        "G",
        NESTED,
        &["\0\x02", "\0\x03"],
        &[NESTED, NESTED_CHILD, FOUR_CHILD],
        ("here", 0, b"\x03"),
    ),
    (
        "G",
        NESTED,
        &["\0\x02", "\0\x03"],
        &[NESTED, NESTED_CHILD],
        ("missing", 2, b""),
    ),
    (
        "G",
        NESTED,
        &["\0\x02", "\0\x03"],
        &[NESTED, FOUR_CHILD, NESTED_CHILD],
        ("missing", 1, b""),
    ),
    (
        "G",
        NESTED,
        &["\0\x02", "\0\x03"],
        &[NESTED, NESTED_CHILD, NESTED_CHILD],
        ("missing", 2, b""),
    ),
    (
        "G",
        NESTED,
        &["\0\x02", "\0\x05"],
        &[NESTED, NESTED_CHILD, FOUR_CHILD],
        ("absent", 1, b""),
    ),
    (
        "G",
        NESTED,
        &["\0\x02", "x"],
        &[NESTED, NESTED_CHILD],
        ("absent", 1, b""),
    ),
    (
        "G",
        NESTED,
        &["\0\x07", "x"],
        &[NESTED, NESTED_CHILD],
        ("absent", 0, b""),
    ),
    ("G", NESTED, &["x", "x"], &[NESTED], ("absent", 0, b"")),
    (
        "G",
        NESTED,
        &["\0\x02"],
        &[NESTED, NESTED_CHILD],
        ("here", 0, FOUR),
    ),
    (
        "G",
        NESTED,
        &["\0\x02", "\0\x03", "\0"],
        &[NESTED, NESTED_CHILD, FOUR_CHILD],
        ("absent", 2, b""),
    ),
];

const WRONG_ONES: [Row; 9] = [
    (
        "H",
        WRONG,
        &["\0\x02"],
        &[WRONG, WRONG_CHILD],
        ("shape", 1, b""),
    ),
    (
        "H",
        WRONG,
        &["\0\x03"],
        &[WRONG, WRONG_CHILD],
        ("here", 0, b"\x03"),
    ),
    (
        "H",
        TO_LIST,
        &["\0"],
        &[TO_LIST, b"\x80"],
        ("shape", 1, b""),
    ),
    (
        "H",
        TO_LONG_HEAD,
        &["\0"],
        &[TO_LONG_HEAD, b"\x18\x17"],
        ("cbor", 1, b""),
    ),
    ("H", b"\x18\x17", &["x"], &[b"\x18\x17"], ("cbor", 0, b"")),
    ("H", b"\x80", &["x"], &[b"\x80"], ("shape", 0, b"")),
    (
        "G",
        FOUR,
        &["\0\x02"],
        &[FOUR, FOUR_CHILD],
        ("shape", 1, b""),
    ),
    (
        "I",
        b"\x82\x05\x61x",
        &["0"],
        &[b"\x82\x05\x61x"],
        ("shape", 0, b""),
    ),
    (
        "I",
        b"\x82\x05\x06",
        &["1"],
        &[b"\x82\x05\x06"],
        ("here", 0, b"\x06"),
    ),
];

const HASHED: [Row; 2] = [
    ("H", ABC, &["abc"], &[ABC], ("here", 0, b"\x01")),
    ("H", ABC, &["x"], &[ABC], ("absent", 0, b"")),
];

// HAMTs of three bits a level: the keys 00 and 01 part at the third.
const NARROW_ONES: [Row; 8] = [
    (
        "N",
        NARROW,
        &["\0"],
        &[NARROW, NARROW_CHILD, NARROW_LAST],
        ("here", 0, b"\x01"),
    ),
    (
        "N",
        NARROW,
        &["\x01"],
        &[NARROW, NARROW_CHILD, NARROW_LAST],
        ("here", 0, b"\x02"),
    ),
    (
        "N",
        NARROW,
        &["\x02"],
        &[NARROW, NARROW_CHILD, NARROW_LAST],
        ("absent", 0, b""),
    ),
    ("N", NARROW, &["@"], &[NARROW], ("absent", 0, b"")),
    (
        "N",
        NARROW,
        &["\0"],
        &[NARROW, NARROW_CHILD],
        ("missing", 2, b""),
    ),
    (
        "H",
        NARROW,
        &["\0"],
        &[NARROW, NARROW_CHILD, NARROW_LAST],
        ("shape", 0, b""),
    ),
    ("N", FOUR, &["\0"], &[FOUR, FOUR_CHILD], ("shape", 0, b"")),
    (
        "N",
        TO_WIDE,
        &["\0"],
        &[TO_WIDE, FOUR_CHILD],
        ("shape", 1, b""),
    ),
];

fn all_so<H: KeyHash>(rt: &impl Abort, alloc: Global, table: &[Row], keys: &H) -> Result<(), Fail> {
    let acc = schema(alloc)?;
    for row in table {
        let (name, root, path, blocks, want) = *row;
        let proof = proof_of(alloc, blocks).ok_or("a proof")?;
        let so = is_answered(alloc, &acc, name, root, path, &proof, keys, want);
        assert!(rt; so.ok_or("an answer")?, "{} {:?} {}", name, path, want.0);
    }
    Ok(())
}

#[test]
fn a_key_in_one_hamt(rt: HostRuntime) -> Result<(), Fail> {
    all_so(&rt, rt.alloc(), &OF_FOUR, &PadKeys)
}

#[test]
fn keys_in_hamts_in_hamts(rt: HostRuntime) -> Result<(), Fail> {
    all_so(&rt, rt.alloc(), &NESTED_ONES, &PadKeys)
}

#[test]
fn blocks_out_of_form(rt: HostRuntime) -> Result<(), Fail> {
    all_so(&rt, rt.alloc(), &WRONG_ONES, &PadKeys)
}

#[test]
fn keys_hashed_by_sha2(rt: HostRuntime) -> Result<(), Fail> {
    all_so(&rt, rt.alloc(), &HASHED, &Sha256Keys)
}

#[test]
fn keys_in_hamts_of_another_shape(rt: HostRuntime) -> Result<(), Fail> {
    all_so(&rt, rt.alloc(), &NARROW_ONES, &PadKeys)
}
