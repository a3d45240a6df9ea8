//! How the values of JSON texts are judged: by a hole in a tuple, a broken delimiter, and their depth.
use crate::slots::{slot_of, tree_of};
use ild_build::{Judged, judge};
use ild_compile::compile;
use ild_schema::Accepted;
use ild_value::of_shown;
use std::alloc::Global;
use std::process::Abort;
use std::test::Fail;

/// A type, a JSON text, the room, and the judgement.
type Row = (&'static str, &'static str, u32, Option<Judged>);

const SRC: &str =
    "type J struct { a String b String } representation stringjoin { join \":\" } type JJ struct { a String \
     b String } representation stringjoin { join \"aa\" } type Q {String:String} representation stringpairs \
     { innerDelim \"=\" entryDelim \"&\" } type T struct { a Int b optional Int c optional Int } representation \
     tuple type TJ struct { a J b T } type M {J:Int} type MP {J:Int} representation listpairs type H {String:Int} \
     representation advanced HAMT type L [L] type A any";

const TABLE: [Row; 30] = [
    ("J", "{\"a\":\"x\",\"b\":\"y\"}", 96, None),
    ("J", "{\"a\":\"\",\"b\":\"y\"}", 96, None),
    (
        "J",
        "{\"a\":\"p:q\",\"b\":\"y\"}",
        96,
        Some(Judged::Delimiter),
    ),
    (
        "JJ",
        "{\"a\":\"a\",\"b\":\"b\"}",
        96,
        Some(Judged::Delimiter),
    ),
    ("JJ", "{\"a\":\"b\",\"b\":\"b\"}", 96, None),
    ("JJ", "{\"a\":\"\",\"b\":\"\"}", 96, None),
    ("Q", "{\"a\":\"1\",\"b\":\"\"}", 96, None),
    ("Q", "{\"a\":\"1&2\"}", 96, Some(Judged::Delimiter)),
    ("Q", "{\"a=b\":\"1\"}", 96, Some(Judged::Delimiter)),
    ("Q", "{\"a\":\"x=y\"}", 96, None),
    ("Q", "{}", 96, None),
    ("T", "{\"a\":1}", 96, None),
    ("T", "{\"a\":1,\"b\":2}", 96, None),
    ("T", "{\"a\":1,\"c\":3}", 96, Some(Judged::Hole)),
    ("T", "{\"a\":1,\"b\":2,\"c\":3}", 96, None),
    (
        "TJ",
        "{\"a\":{\"a\":\":\",\"b\":\"\"},\"b\":{\"a\":1,\"c\":3}}",
        0,
        Some(Judged::Hole),
    ),
    (
        "TJ",
        "{\"a\":{\"a\":\":\",\"b\":\"\"},\"b\":{\"a\":1}}",
        0,
        Some(Judged::Delimiter),
    ),
    (
        "TJ",
        "{\"a\":{\"a\":\"\",\"b\":\"\"},\"b\":{\"a\":1}}",
        1,
        Some(Judged::Depth),
    ),
    (
        "TJ",
        "{\"a\":{\"a\":\"\",\"b\":\"\"},\"b\":{\"a\":1}}",
        2,
        None,
    ),
    ("M", "{}", 0, Some(Judged::Depth)),
    ("M", "{}", 1, None),
    ("M", "{\"x:y\":1}", 1, Some(Judged::Depth)),
    ("M", "{\"x:y\":1}", 2, None),
    ("MP", "{\"x:y\":1}", 2, Some(Judged::Depth)),
    ("MP", "{\"x:y\":1}", 3, None),
    ("H", "{\"x\":1}", 4, Some(Judged::Depth)),
    ("H", "{\"x\":1}", 5, None),
    ("L", "[[],[[]]]", 2, Some(Judged::Depth)),
    ("L", "[[],[[]]]", 3, None),
    ("A", "[[],[[]]]", 2, Some(Judged::Depth)),
];

/// Whether a row is so.
fn is_so(alloc: Global, acc: &Accepted, row: &Row) -> Result<bool, &'static str> {
    let slot = slot_of(acc, row.0)?;
    let tree = tree_of(alloc, row.1)?;
    match of_shown(alloc, acc, slot, &tree) {
        Ok(val) => match judge(alloc, acc, slot, &val, row.2) {
            Ok(judged) => Ok(judged == row.3),
            Err(_) => Err("memory"),
        },
        Err(_) => Err("a value"),
    }
}

#[test]
fn judgements(rt: HostRuntime) -> Result<(), Fail> {
    let acc = compile(rt.alloc(), SRC.as_bytes()).ok().ok_or("a schema")?;
    for row in &TABLE {
        assert!(rt;
            is_so(rt.alloc(), &acc, row)?,
            "{} {} {}",
            row.0,
            row.1,
            row.2
        );
    }
    Ok(())
}
