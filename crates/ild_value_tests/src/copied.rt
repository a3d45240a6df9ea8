//! Copies of values, shown once the values themselves are gone. What is shown was written by hand: each kind of part has a neighbour, and parts of
//! its own.
ghost use Rattle.std.specs.Prelude.{◌<◌, length};

use crate::slots::{slot_of, tree_of};
use ild_compile::compile;
use ild_json::print;
use ild_schema::{Accepted, Slot, Val};
use ild_value::{copy, from_shown};
use ild_value_shown::shown;
use std::alloc::Global;
use std::process::Abort;
use std::test::Fail;

const SRC: &str =
    "type S struct { a [U] b optional String c nullable {String:S} } type U union { | Int \"i\" | S \"s\" } \
     representation keyed type E enum { | Yes | No } type O unit representation emptymap type M {String:E} \
     representation advanced HAMT type A any type T struct { e M f Bytes g Link h Bool o O } representation tuple";

/// A type, a JSON text, and the JSON of the value's copy.
type Row = (&'static str, &'static str, &'static str);

const COPIED: [Row; 4] = [
    ("S", "{\"a\":[],\"c\":null}", "{\"a\":[],\"c\":null}"),
    (
        "S",
        "{\"c\":{\"y\":{\"a\":[{\"Int\":3}],\"c\":null,\"b\":\"in\"},\"x\":{\"a\":[],\"c\":{}}},\"b\":\"out\",\"a\":[{\"Int\":-1},{\"S\":{\"a\":[{\"Int\":2}],\"c\":null}},{\"Int\":1}]}",
        "{\"a\":[{\"Int\":-1},{\"S\":{\"a\":[{\"Int\":2}],\"c\":null}},{\"Int\":1}],\"b\":\"out\",\"c\":{\"x\":{\"a\":[],\"c\":{}},\"y\":{\"a\":[{\"Int\":3}],\"b\":\"in\",\"c\":null}}}",
    ),
    (
        "T",
        "{\"e\":{\"l\":\"No\",\"kk\":\"Yes\",\"k\":\"Yes\"},\"f\":{\"/\":{\"bytes\":\"AQI\"}},\"g\":{\"/\":\"bafyreibwgqhlf3cquwa66c25m4jc3cadrcvcjprzbhmrgmqvb3kt5xbcxu\"},\"h\":true,\"o\":{}}",
        "{\"e\":{\"k\":\"Yes\",\"kk\":\"Yes\",\"l\":\"No\"},\"f\":{\"/\":{\"bytes\":\"AQI\"}},\"g\":{\"/\":\"bafyreibwgqhlf3cquwa66c25m4jc3cadrcvcjprzbhmrgmqvb3kt5xbcxu\"},\"h\":true,\"o\":{}}",
    ),
    (
        "A",
        "[[1,[\"two\",{\"b\":3,\"a\":[null,false]}]],-4]",
        "[[1,[\"two\",{\"a\":[null,false],\"b\":3}]],-4]",
    ),
];

/// A copy of the value that a JSON text means.
fn copied(alloc: Global, acc: &Accepted, slot: Slot, json: &str) -> Result<Val, &'static str>
    requires { slot.ty.0 < length acc.now }
{
    let tree = tree_of(alloc, json)?;
    match from_shown(alloc, acc, slot, tree) {
        Ok(val) => Ok(copy(alloc, &val).ok().ok_or("memory for a copy")?),
        Err(_) => Err("a value"),
    }
}

/// Whether the copy of the value that a JSON text means is shown so.
pub(crate) fn is_so(
    alloc: Global,
    acc: &Accepted,
    name: &str,
    json: &str,
    want: &str,
) -> Result<bool, &'static str> {
    let slot = slot_of(acc, name)?;
    let val = copied(alloc, acc, slot, json)?;
    let tree = shown(alloc, acc, slot, &val)
        .ok()
        .ok_or("memory for a tree")?;
    let text = print(alloc, &tree).ok().ok_or("memory for a text")?;
    Ok(text.as_str() == want)
}

#[test]
fn copies(rt: HostRuntime) -> Result<(), Fail> {
    let acc = compile(rt.alloc(), SRC.as_bytes()).ok().ok_or("a schema")?;
    for row in &COPIED {
        let (name, json, want) = *row;
        assert!(rt; is_so(rt.alloc(), &acc, name, json, want)?, "{name} {json}");
    }
    Ok(())
}
