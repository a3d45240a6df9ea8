//! Blocks that were worked out by hand, and the same with one part replaced.
use crate::steps::{Row, all_so};
use std::test::Fail;

const SRC: &str =
    "type J struct { a String b String } representation stringjoin { join \":\" } type Q \
     {String:String} representation stringpairs { innerDelim \"=\" entryDelim \"&\" } type P \
     {String:Int} representation listpairs type R struct { a Int b String } representation listpairs \
     type T struct { a Int b optional Int c optional Int } representation tuple type Dot struct { x \
     Int (rename \"y\") } type Box struct { w Int h Int } type K union { | Dot \"dot\" | Box \"box\" } \
     representation keyed type V union { | Dot \"dot\" | Box \"box\" } representation envelope { \
     discriminantKey \"k\" contentKey \"c\" } type N union { | Dot \"dot\" | Box \"box\" } \
     representation inline { discriminantKey \"k\" } type Raw bytes type X union { | Raw \"01\" } \
     representation bytesprefix type M union { | Int int | Box map } representation kinded type L [K] \
     type D {String:Any} type W struct { q Q }";

const LISTED: [Row; 6] = [
    (
        "P",
        b"\x82\x82aa\x02\x82ab\x01",
        &["b"],
        "pair1 ",
        b"\x82\x82aa\x02\x82ab\x05",
    ),
    (
        "R",
        b"\x82\x82aa\x01\x82abax",
        &["a"],
        "pair0 ",
        b"\x82\x82aa\x05\x82abax",
    ),
    (
        "T",
        b"\x83\x01\x02\x03",
        &["b"],
        "item1 ",
        b"\x83\x01\x05\x03",
    ),
    ("Dot", b"\xa1ay\x01", &["x"], "y ", b"\xa1ay\x05"),
    (
        "L",
        b"\x82\xa1cdot\xa1ay\x01\xa1cbox\xa2ah\x03aw\x02",
        &["1", "Box", "h"],
        "item1 box h ",
        b"\x82\xa1cdot\xa1ay\x01\xa1cbox\xa2ah\x05aw\x02",
    ),
    (
        "D",
        b"\xa1aa\x82\x01\xa1ab\x02",
        &["a", "1", "b"],
        "a item1 b ",
        b"\xa1aa\x82\x01\xa1ab\x05",
    ),
];

const UNIONS: [Row; 4] = [
    (
        "K",
        b"\xa1cbox\xa2ah\x03aw\x02",
        &["Box", "w"],
        "box w ",
        b"\xa1cbox\xa2ah\x03aw\x05",
    ),
    (
        "V",
        b"\xa2ac\xa2ah\x03aw\x02akcbox",
        &["Box", "h"],
        "c h ",
        b"\xa2ac\xa2ah\x05aw\x02akcbox",
    ),
    (
        "N",
        b"\xa3ah\x03akcboxaw\x02",
        &["Box", "w"],
        "beside-k w ",
        b"\xa3ah\x03akcboxaw\x05",
    ),
    (
        "M",
        b"\xa2ah\x03aw\x02",
        &["Box", "h"],
        "same h ",
        b"\xa2ah\x05aw\x02",
    ),
];

const REPLACED: [Row; 5] = [
    ("J", b"cx:y", &["a"], "whole 0", b""),
    ("Q", b"fa=1&b=", &["b"], "whole 0", b""),
    ("X", b"C\x01\xaa\xbb", &["Raw"], "whole 0", b""),
    ("W", b"\xa1aqfa=1&b=", &["q", "a"], "q whole 1", b""),
    ("N", b"\xa3ah\x03akcboxaw\x02", &["Box"], "beside-k 0", b""),
];

#[test]
fn of_listed(rt: HostRuntime) -> Result<(), Fail> {
    all_so(&rt, rt.alloc(), SRC, &LISTED)
}

#[test]
fn of_unions(rt: HostRuntime) -> Result<(), Fail> {
    all_so(&rt, rt.alloc(), SRC, &UNIONS)
}

#[test]
fn of_replaced(rt: HostRuntime) -> Result<(), Fail> {
    all_so(&rt, rt.alloc(), SRC, &REPLACED)
}
