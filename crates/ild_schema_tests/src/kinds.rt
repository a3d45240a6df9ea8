//! The kinds that each form of a type may have in a block.
use ild_accept::kinds_of;
use ild_compile::table_of;
use ild_schema::{Kinds, Schema};
use std::alloc::{AllocError, Global};
use std::process::Abort;
use std::test::Fail;

const SRC: &str =
    "type S struct { a Int b Int } type T struct { a Int b Int } representation tuple type P struct { a Int b \
     Int } representation listpairs type J struct { a String b String } representation stringjoin { join \":\" \
     } type F struct { a String b String } representation stringpairs { innerDelim \"=\" entryDelim \"&\" } type \
     M {String:Int} type L {String:Int} representation listpairs type Q {String:String} representation stringpairs \
     { innerDelim \"=\" entryDelim \"&\" } type H {String:Int} representation advanced HAMT type I [Int] type U union \
     { | Int \"i\" | String \"s\" } representation keyed type V union { | S \"one\" | T \"two\" } representation envelope \
     { discriminantKey \"tag\" contentKey \"of\" } type W union { | S \"1\" | S2 \"2\" } representation inline { discriminantKey \
     \"tag\" } type S2 struct { c Int } type X union { | String \"s:\" | E \"e:\" } representation stringprefix type B union { | \
     Bytes \"00\" | Bytes2 \"ff\" } representation bytesprefix type Bytes2 bytes type E enum { | Yes | No } type N enum { | One \
     (\"1\") | Less (\"-1\") } representation int type O unit representation null type Y unit representation true type Z unit \
     representation emptymap type A any type R &S type K union { | Bool bool | Int int | X string | B bytes | P list | H map | \
     &S link } representation kinded type K2 union { | O null | N int | C2 map } representation kinded type C = C2 type C2 = \
     S type C3 = K2 type D = C";

/// A type, and the kinds of its representation in their order.
const KINDS: [&str; 38] = [
    "S map",
    "T list",
    "P list",
    "J string",
    "F string",
    "M map",
    "L list",
    "Q string",
    "H map",
    "I list",
    "U map",
    "V map",
    "W map",
    "X string",
    "B bytes",
    "E string",
    "N int",
    "O null",
    "Y bool",
    "Z map",
    "A bool int string bytes list map link",
    "R link",
    "K bool int string bytes list map link",
    "K2 null int map",
    "C map",
    "C2 map",
    "C3 null int map",
    "D map",
    "S2 map",
    "Bytes2 bytes",
    "Any bool int string bytes list map link",
    "Bool bool",
    "Bytes bytes",
    "Int int",
    "Link link",
    "List list",
    "Map map",
    "String string",
];

/// The name of a type, and its kinds.
fn told(alloc: Global, name: &str, kinds: Kinds) -> Result<String, AllocError> {
    let mut text = String::new(alloc);
    text.push_str(name)?;
    for (has, word) in [
        (kinds.null, " null"),
        (kinds.boolean, " bool"),
        (kinds.int, " int"),
        (kinds.text, " string"),
        (kinds.bytes, " bytes"),
        (kinds.list, " list"),
        (kinds.map, " map"),
        (kinds.link, " link"),
    ] {
        if has {
            text.push_str(word)?;
        }
    }
    Ok(text)
}

fn is_so(alloc: Global, schema: &Schema, row: &str) -> Option<bool> {
    let (name, _) = row.split_once(' ')?;
    let ty = schema.type_named(name)?;
    if ty.0 >= schema.types() {
        return None;
    }
    let text = told(alloc, name, kinds_of(schema, ty)).ok()?;
    Some(text.as_str() == row)
}

#[test]
fn kinds_of_each_form(rt: HostRuntime) -> Result<(), Fail> {
    let schema = table_of(rt.alloc(), SRC.as_bytes()).ok().ok_or("a table")?;
    for row in &KINDS {
        assert!(rt; is_so(rt.alloc(), &schema, row) == Some(true), "{}", *row);
    }
    Ok(())
}

/// A schema of a thousand types, each a copy of the next, and the last of them a struct of a thousand fields.
fn copies(alloc: Global) -> Result<String, AllocError> {
    let mut text = String::new(alloc);
    for n in 1..1_000u32 {
        let copy = format!(in alloc; "type C{n} = C{} ", n.wrapping_add(1))?;
        text.push_str(copy.as_str())?;
    }
    text.push_str("type C1000 struct {")?;
    for n in 0..1_000u32 {
        let field = format!(in alloc; " f{n} Int")?;
        text.push_str(field.as_str())?;
    }
    text.push_str(" } representation tuple")?;
    Ok(text)
}

#[test]
fn kinds_behind_many_copies(rt: HostRuntime) -> Result<(), Fail> {
    let source = copies(rt.alloc())?;
    let schema = table_of(rt.alloc(), source.as_str().as_bytes())
        .ok()
        .ok_or("a table")?;
    for row in ["C1 list", "C500 list", "C1000 list"] {
        assert!(rt; is_so(rt.alloc(), &schema, row) == Some(true), "{row}");
    }
    Ok(())
}
