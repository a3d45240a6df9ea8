//! What JSON texts mean: the shown form of the value, or the rule that is broken and the type at which it is.
use crate::slots::{slot_of, tree_of};
use ild_compile::compile;
use ild_json::print;
use ild_schema::{Accepted, Slot, Val};
use ild_value::ShownRule::{Key, Kind, Member, Missing, Name};
use ild_value::{ShownErr, ShownRule, from_shown};
use ild_value_shown::shown;
use std::alloc::Global;
use std::process::Abort;
use std::test::Fail;

/// A type, a JSON text, and the JSON of its value as it is shown, or the rule with the name of the type.
type Row = (
    &'static str,
    &'static str,
    Result<&'static str, (&'static str, ShownRule)>,
);

const VALUES: &str =
    "type S struct { a Int b optional String } type R struct { a Int (rename \"b\") b Int (rename \"a\") \
     } type P {String:Int} representation listpairs type H {String:Int} representation advanced HAMT type \
     T struct { a Int b optional Int c optional Int } representation tuple type I struct { n Int (implicit \
     0) } type Dot struct { x Int } type Box struct { w Int h Int } type U union { | Dot \"dot\" | Box \"box\" \
     } representation keyed type V union { | Dot \"dot\" | Box \"box\" } representation inline { discriminantKey \
     \"k\" } type E enum { | No (\"0\") | Yes (\"1\") } representation int type O unit representation emptymap \
     type L [nullable Int] type A any type M struct { z String y optional Bytes w {String:String} v Link \
     n A }";

const GOOD: [Row; 20] = [
    ("S", "{\"a\":1}", Ok("{\"a\":1}")),
    ("S", "{\"b\":\"x\",\"a\":1}", Ok("{\"a\":1,\"b\":\"x\"}")),
    ("R", "{\"a\":1,\"b\":2}", Ok("{\"a\":1,\"b\":2}")),
    ("P", "{\"b\":1,\"a\":2}", Ok("{\"a\":2,\"b\":1}")),
    ("P", "{}", Ok("{}")),
    ("H", "{\"b\":1,\"a\":2}", Ok("{\"a\":2,\"b\":1}")),
    ("T", "{\"a\":1}", Ok("{\"a\":1}")),
    ("T", "{\"a\":1,\"c\":3}", Ok("{\"a\":1,\"c\":3}")),
    ("I", "{}", Ok("{\"n\":0}")),
    ("I", "{\"n\":0}", Ok("{\"n\":0}")),
    ("I", "{\"n\":7}", Ok("{\"n\":7}")),
    (
        "U",
        "{\"Box\":{\"w\":2,\"h\":3}}",
        Ok("{\"Box\":{\"h\":3,\"w\":2}}"),
    ),
    ("V", "{\"Dot\":{\"x\":1}}", Ok("{\"Dot\":{\"x\":1}}")),
    ("E", "\"Yes\"", Ok("\"Yes\"")),
    ("O", "{}", Ok("{}")),
    ("L", "[1,null]", Ok("[1,null]")),
    ("A", "[null,{\"b\":1}]", Ok("[null,{\"b\":1}]")),
    ("Int", "18446744073709551615", Ok("18446744073709551615")),
    (
        "M",
        "{\"n\":[1,{\"w\":\"z\"}],\"v\":{\"/\":\"bafyreibwgqhlf3cquwa66c25m4jc3cadrcvcjprzbhmrgmqvb3kt5xbcxu\"},\"w\":{\"k\":\"l\"},\"y\":{\"/\":{\"bytes\":\"AQI\"}},\"z\":\"x\"}",
        Ok(
            "{\"n\":[1,{\"w\":\"z\"}],\"v\":{\"/\":\"bafyreibwgqhlf3cquwa66c25m4jc3cadrcvcjprzbhmrgmqvb3kt5xbcxu\"},\"w\":{\"k\":\"l\"},\"y\":{\"/\":{\"bytes\":\"AQI\"}},\"z\":\"x\"}",
        ),
    ),
    (
        "M",
        "{\"n\":\"m\",\"v\":{\"/\":\"bafyreibwgqhlf3cquwa66c25m4jc3cadrcvcjprzbhmrgmqvb3kt5xbcxu\"},\"w\":{},\"z\":\"\"}",
        Ok(
            "{\"n\":\"m\",\"v\":{\"/\":\"bafyreibwgqhlf3cquwa66c25m4jc3cadrcvcjprzbhmrgmqvb3kt5xbcxu\"},\"w\":{},\"z\":\"\"}",
        ),
    ),
];

const BROKEN: [Row; 19] = [
    ("S", "{\"a\":\"x\"}", Err(("Int", Kind))),
    ("S", "{\"a\":null}", Err(("Int", Kind))),
    ("S", "[1]", Err(("S", Kind))),
    ("S", "{\"a\":1,\"z\":1}", Err(("S", Name))),
    ("S", "{}", Err(("S", Missing))),
    ("S", "{\"b\":\"x\"}", Err(("S", Missing))),
    ("T", "{\"b\":2}", Err(("T", Missing))),
    ("I", "{\"n\":null}", Err(("Int", Kind))),
    ("U", "{\"Dit\":{\"x\":1}}", Err(("U", Member))),
    ("U", "{\"dot\":{\"x\":1}}", Err(("U", Member))),
    ("U", "{}", Err(("U", Member))),
    (
        "U",
        "{\"Dot\":{\"x\":1},\"Box\":{\"w\":2,\"h\":3}}",
        Err(("U", Member)),
    ),
    ("U", "{\"Dot\":{\"y\":1}}", Err(("Dot", Name))),
    ("E", "\"1\"", Err(("E", Member))),
    ("E", "1", Err(("E", Kind))),
    ("O", "{\"x\":1}", Err(("O", Name))),
    ("O", "null", Err(("O", Kind))),
    ("L", "[\"x\"]", Err(("Int", Kind))),
    ("A", "null", Err(("A", Kind))),
];

const KEYED: &str =
    "type W string type K enum { | x | y } type C = K type J struct { a K b W } representation stringjoin \
     { join \":\" } type Q {K:W} representation stringpairs { innerDelim \"=\" entryDelim \"&\" } type F \
     struct { a W b optional W } representation stringpairs { innerDelim \"=\" entryDelim \"&\" } type N \
     union { | W \"w\" | K \"k\" } representation stringprefix type D union { | K string } representation \
     kinded type MK {K:Int} type MC {C:Int} type MJ {J:Int} type MQ {Q:Int} type MF {F:Int} type MN {N:Int} \
     type MD {D:Int} type MW {W:Int} representation listpairs type MH {J:Int} representation advanced HAMT";

const KEYS: [Row; 22] = [
    ("MW", "{\"z\":1}", Ok("{\"z\":1}")),
    ("MK", "{\"x\":1}", Ok("{\"x\":1}")),
    ("MK", "{\"z\":1}", Err(("MK", Key))),
    ("MK", "{\"x\":\"\"}", Err(("Int", Kind))),
    ("MC", "{\"y\":1}", Ok("{\"y\":1}")),
    ("MC", "{\"z\":1}", Err(("MC", Key))),
    ("MJ", "{\"x:\":1}", Ok("{\"x:\":1}")),
    ("MJ", "{\"x\":1}", Err(("MJ", Key))),
    ("MJ", "{\"z:b\":1}", Err(("MJ", Key))),
    ("MJ", "{\"x:b:c\":1}", Err(("MJ", Key))),
    ("MQ", "{\"\":1,\"x=1&y=\":2}", Ok("{\"\":1,\"x=1&y=\":2}")),
    ("MQ", "{\"x=1&x=2\":1}", Err(("MQ", Key))),
    ("MQ", "{\"z=1\":1}", Err(("MQ", Key))),
    ("MF", "{\"a=1\":1}", Ok("{\"a=1\":1}")),
    ("MF", "{\"b=1\":1}", Err(("MF", Key))),
    ("MN", "{\"w\":1,\"kx\":2}", Ok("{\"kx\":2,\"w\":1}")),
    ("MN", "{\"kz\":1}", Err(("MN", Key))),
    ("MN", "{\"z\":1}", Err(("MN", Key))),
    ("MD", "{\"x\":1}", Ok("{\"x\":1}")),
    ("MD", "{\"z\":1}", Err(("MD", Key))),
    ("MH", "{\"y:b\":1}", Ok("{\"y:b\":1}")),
    ("MH", "{\"b\":1}", Err(("MH", Key))),
];

/// Whether a value is shown so.
fn is_shown(
    alloc: Global,
    acc: &Accepted,
    slot: Slot,
    val: &Val,
    json: &str,
) -> Result<bool, &'static str> {
    if slot.ty.0 >= acc.types() {
        return Err("a type of the table");
    }
    let tree = shown(alloc, acc, slot, val)
        .ok()
        .ok_or("memory for a tree")?;
    let text = print(alloc, &tree).ok().ok_or("memory for a text")?;
    Ok(text.as_str() == json)
}

/// Whether the rule is this one, at the type of this name.
fn is_refusal(
    acc: &Accepted,
    fault: ShownErr,
    want: (&'static str, ShownRule),
) -> Result<bool, &'static str> {
    match fault {
        ShownErr::Mismatch { ty, rule } => Ok(ty == slot_of(acc, want.0)?.ty && rule == want.1),
        ShownErr::Memory => Err("memory for a value"),
    }
}

/// Whether a row is so.
fn is_so(alloc: Global, acc: &Accepted, row: &Row) -> Result<bool, &'static str> {
    let slot = slot_of(acc, row.0)?;
    let tree = tree_of(alloc, row.1)?;
    match from_shown(alloc, acc, slot, tree) {
        Ok(val) => match row.2 {
            Ok(json) => is_shown(alloc, acc, slot, &val, json),
            Err(_) => Ok(false),
        },
        Err(fault) => match row.2 {
            Ok(_) => Ok(false),
            Err(want) => is_refusal(acc, fault, want),
        },
    }
}

fn all_so(rt: &impl Abort, alloc: Global, source: &str, table: &[Row]) -> Result<(), Fail> {
    let acc = compile(alloc, source.as_bytes()).ok().ok_or("a schema")?;
    for row in table {
        assert!(rt; is_so(alloc, &acc, row)?, "{} {}", row.0, row.1);
    }
    Ok(())
}

#[test]
fn values(rt: HostRuntime) -> Result<(), Fail> {
    all_so(&rt, rt.alloc(), VALUES, &GOOD)
}

#[test]
fn rules(rt: HostRuntime) -> Result<(), Fail> {
    all_so(&rt, rt.alloc(), VALUES, &BROKEN)
}

#[test]
fn keys(rt: HostRuntime) -> Result<(), Fail> {
    all_so(&rt, rt.alloc(), KEYED, &KEYS)
}
