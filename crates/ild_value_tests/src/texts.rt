//! The texts of values that stand as the value of an entry in a text. They were written by hand: each has more than one part, and most have texts inside of texts.
ghost use Rattle.std.specs.Prelude.{◌<◌, IfOk, length};
ghost use Rattle.ild_schema.specs.Made.{IsTextSlot};

use crate::slots::{slot_of, tree_of};
use ild_build::{judge, text_of};
use ild_compile::compile;
use ild_data::Txt;
use ild_schema::{Accepted, MapForm, Slot, TypeDef};
use ild_value::of_shown;
use std::alloc::Global;
use std::process::Abort;
use std::test::Fail;

/// How deep a value of a block may nest.
const ROOM: u32 = 96;

/// Maps with values of a type each, which they are named after.
const SRC: &str =
    "type W string type E enum { | Yes (\"y\") | No } type J struct { a W b I c E } representation stringjoin \
     { join \":\" } type I struct { d W e W } representation stringjoin { join \"/\" } type P struct { a W b optional \
     E c I (rename \"cc\") } representation stringpairs { innerDelim \"~\" entryDelim \";\" } type Q {W:I} representation \
     stringpairs { innerDelim \"-\" entryDelim \"+\" } type N union { | W \"w!\" | J \"j!\" } representation stringprefix \
     type OfW {W:W} representation stringpairs { innerDelim \"=\" entryDelim \"&\" } type OfE {W:E} representation stringpairs \
     { innerDelim \"=\" entryDelim \"&\" } type OfJ {W:J} representation stringpairs { innerDelim \"=\" entryDelim \"&\" } type \
     OfP {W:P} representation stringpairs { innerDelim \"=\" entryDelim \"&\" } type OfQ {W:Q} representation stringpairs { innerDelim \
     \"=\" entryDelim \"&\" } type OfN {W:N} representation stringpairs { innerDelim \"=\" entryDelim \"&\" }";

/// A map's type, the JSON of a value in it, and the text.
type Row = (&'static str, &'static str, &'static str);

const TEXTS: [Row; 9] = [
    ("OfW", "\"é x\"", "é x"),
    ("OfE", "\"Yes\"", "y"),
    (
        "OfJ",
        "{\"a\":\"x\",\"b\":{\"d\":\"p\",\"e\":\"q\"},\"c\":\"Yes\"}",
        "x:p/q:y",
    ),
    (
        "OfJ",
        "{\"c\":\"No\",\"a\":\"\",\"b\":{\"e\":\"\",\"d\":\"é\"}}",
        ":é/:No",
    ),
    (
        "OfP",
        "{\"a\":\"x\",\"b\":\"No\",\"c\":{\"d\":\"1\",\"e\":\"2\"}}",
        "a~x;b~No;cc~1/2",
    ),
    (
        "OfP",
        "{\"a\":\"\",\"c\":{\"d\":\"\",\"e\":\"\"}}",
        "a~;cc~/",
    ),
    (
        "OfQ",
        "{\"z\":{\"d\":\"1\",\"e\":\"2\"},\"aa\":{\"d\":\"3\",\"e\":\"4\"},\"k\":{\"d\":\"\",\"e\":\"5\"}}",
        "k-/5+z-1/2+aa-3/4",
    ),
    ("OfN", "{\"W\":\"x\"}", "w!x"),
    (
        "OfN",
        "{\"J\":{\"a\":\"x\",\"b\":{\"d\":\"p\",\"e\":\"q\"},\"c\":\"No\"}}",
        "j!x:p/q:No",
    ),
];

/// The slot of the values of a map that stands as a text: they are texts too.
fn value_slot(acc: &Accepted, name: &str) -> Result<Slot, &'static str>
    ensures within { IfOk result (λ slot. slot.ty.0 < length acc.now) }
    ensures text { IfOk result (IsTextSlot acc.now) }
{
    let map = slot_of(acc, name)?;
    acc.recall();
    match acc.def(map.ty) {
        TypeDef::Map { value, form, .. } => match form {
            MapForm::StringPairs(_, _) => Ok(*value),
            _ => Err("a map in text form"),
        },
        _ => Err("a map"),
    }
}

/// The text of the value of a map of this type that a JSON text means.
pub(crate) fn text(
    alloc: Global,
    acc: &Accepted,
    name: &str,
    json: &str,
) -> Result<Txt, &'static str> {
    let slot = value_slot(acc, name)?;
    let tree = tree_of(alloc, json)?;
    let val = match of_shown(alloc, acc, slot, &tree) {
        Ok(val) => val,
        Err(_) => return Err("a value"),
    };
    match judge(alloc, acc, slot, &val, ROOM) {
        Ok(None) => Ok(
            text_of(alloc, acc, slot, &val)
                .ok()
                .ok_or("memory for a text")?,
        ),
        _ => Err("a sound value"),
    }
}

#[test]
fn texts(rt: HostRuntime) -> Result<(), Fail> {
    let acc = compile(rt.alloc(), SRC.as_bytes()).ok().ok_or("a schema")?;
    for row in &TEXTS {
        let (name, json, want) = *row;
        let text = text(rt.alloc(), &acc, name, json)?;
        assert_eq!(rt; text.as_str(), want, "{name} {json}");
    }
    Ok(())
}
