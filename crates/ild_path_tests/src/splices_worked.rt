//! Edits whose blocks were worked out by hand, by the rules of DAG-CBOR and of IPLD Schemas.
use crate::splices::{Row, all_so};
use std::test::Fail;

const SRC: &str =
    "type J struct { a String b String } representation stringjoin { join \":\" } type Q \
     {String:String} representation stringpairs { innerDelim \"=\" entryDelim \"&\" } type P \
     {String:Int} representation listpairs type T struct { a Int b optional Int c optional Int } \
     representation tuple type Dot struct { x Int (rename \"y\") } type Box struct { w Int h Int } \
     type K union { | Dot \"dot\" | Box \"box\" } representation keyed type N union { | Dot \"dot\" \
     | Box \"box\" } representation inline { discriminantKey \"k\" } type L [K] type D {String:Any} \
     type W struct { q Q }";

const LISTED: [Row; 6] = [
    (
        "P",
        b"\x82\x82aa\x02\x82ab\x01",
        &["b"],
        ("set", b"\x05"),
        ("block", b"\x82\x82aa\x02\x82ab\x05"),
    ),
    (
        "P",
        b"\x82\x82aa\x02\x82ab\x01",
        &["c"],
        ("ins", b"\x05"),
        ("block", b"\x83\x82aa\x02\x82ab\x01\x82ac\x05"),
    ),
    (
        "P",
        b"\x82\x82aa\x02\x82ab\x01",
        &["a"],
        ("del", b""),
        ("block", b"\x81\x82ab\x01"),
    ),
    (
        "T",
        b"\x83\x01\x02\x03",
        &["c"],
        ("del", b""),
        ("block", b"\x82\x01\x02"),
    ),
    (
        "T",
        b"\x82\x01\x02",
        &["c"],
        ("ins", b"\x05"),
        ("block", b"\x83\x01\x02\x05"),
    ),
    (
        "L",
        b"\x82\xa1cdot\xa1ay\x01\xa1cbox\xa2ah\x03aw\x02",
        &["1", "Box", "h"],
        ("set", b"\x05"),
        ("block", b"\x82\xa1cdot\xa1ay\x01\xa1cbox\xa2ah\x05aw\x02"),
    ),
];

const ANY: [Row; 5] = [
    (
        "D",
        b"\xa1aa\x82\x01\xa1ab\x02",
        &["a", "1", "c"],
        ("ins", b"\x05"),
        ("block", b"\xa1aa\x82\x01\xa2ab\x02ac\x05"),
    ),
    (
        "D",
        b"\xa1aa\x82\x01\x02",
        &["a", "-"],
        ("ins", b"\x80"),
        ("block", b"\xa1aa\x83\x01\x02\x80"),
    ),
    (
        "D",
        b"\xa1aa\x82\x01\x02",
        &["a", "0"],
        ("del", b""),
        ("block", b"\xa1aa\x81\x02"),
    ),
    (
        "D",
        b"\xa1aa\x01",
        &[],
        ("set", b"\xa1ab\x02"),
        ("block", b"\xa1ab\x02"),
    ),
    ("D", b"\xa1aa\x01", &["b", "c"], ("del", b""), ("none", b"")),
];

const HELD: [Row; 5] = [
    (
        "N",
        b"\xa3ah\x03akcboxaw\x02",
        &["Box", "w"],
        ("set", b"\x05"),
        ("block", b"\xa3ah\x03akcboxaw\x05"),
    ),
    (
        "N",
        b"\xa3ah\x03akcboxaw\x02",
        &["Dot"],
        ("set", b"\xa1ay\x01"),
        ("0", b"\xa3ah\x03akcboxaw\x02"),
    ),
    (
        "L",
        b"\x81\xa1cdot\xa1ay\x01",
        &["0", "Box"],
        ("set", b"\xa2ah\x03aw\x02"),
        ("1", b"\xa1cdot\xa1ay\x01"),
    ),
    ("J", b"cx:y", &["a"], ("set", b"az"), ("0", b"cx:y")),
    (
        "W",
        b"\xa1aqga=1&b=2",
        &["q", "b"],
        ("del", b""),
        ("1", b"ga=1&b=2"),
    ),
];

#[test]
fn of_listed(rt: HostRuntime) -> Result<(), Fail> {
    all_so(&rt, rt.alloc(), SRC, &LISTED)
}

#[test]
fn of_any(rt: HostRuntime) -> Result<(), Fail> {
    all_so(&rt, rt.alloc(), SRC, &ANY)
}

#[test]
fn of_held(rt: HostRuntime) -> Result<(), Fail> {
    all_so(&rt, rt.alloc(), SRC, &HELD)
}
