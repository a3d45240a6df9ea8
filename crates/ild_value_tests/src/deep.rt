//! Values at the greatest depth and beyond it: nested lists, and keys whose types nest one text in another.
use crate::slots::{slot_of, tree_of};
use ild_build::{Judged, judge};
use ild_compile::compile;
use ild_schema::Accepted;
use ild_value::of_shown;
use std::alloc::{AllocError, Global};
use std::process::Abort;
use std::test::Fail;

/// How deep a value of a block may nest.
const ROOM: u32 = 96;

/// So many lists, each in the one before.
fn lists(alloc: Global, count: usize) -> Result<String, AllocError> {
    let mut text = String::new(alloc);
    for _ in 0..count {
        text.push_str("[")?;
    }
    for _ in 0..count {
        text.push_str("]")?;
    }
    Ok(text)
}

/// Maps from keys of so many types, each of one field of the one before, for each number of types up to a last one.
fn nested_keys(alloc: Global, last: u32) -> Result<String, AllocError> {
    let mut source = format!(in alloc; "type B0 string")?;
    for n in 0..last {
        let more = format!(in alloc;
            " type B{} struct {{ a B{n} }} representation stringjoin {{ join \":\" }} type M{} {{B{}:Int}}",
            n.wrapping_add(1),
            n.wrapping_add(1),
            n.wrapping_add(1)
        )?;
        source.push_str(more.as_str())?;
    }
    Ok(source)
}

/// The judgement of a value in the room of a block.
fn judged(
    alloc: Global,
    acc: &Accepted,
    name: &str,
    json: &str,
) -> Result<Option<Judged>, &'static str> {
    let slot = slot_of(acc, name)?;
    let tree = tree_of(alloc, json)?;
    match of_shown(alloc, acc, slot, &tree) {
        Ok(val) => match judge(alloc, acc, slot, &val, ROOM) {
            Ok(judged) => Ok(judged),
            Err(_) => Err("memory"),
        },
        Err(_) => Err("a value"),
    }
}

#[test]
fn of_lists(rt: HostRuntime) -> Result<(), Fail> {
    let source = "type L [L] type A any";
    let acc = compile(rt.alloc(), source.as_bytes())
        .ok()
        .ok_or("a schema")?;
    let deepest = lists(rt.alloc(), 96)?;
    let deeper = lists(rt.alloc(), 97)?;
    for name in ["L", "A"] {
        assert_eq!(rt;
            judged(rt.alloc(), &acc, name, deepest.as_str())?,
            None,
            "{name}"
        );
        assert_eq!(rt;
            judged(rt.alloc(), &acc, name, deeper.as_str())?,
            Some(Judged::Depth),
            "{name}"
        );
    }
    Ok(())
}

#[test]
fn of_keys(rt: HostRuntime) -> Result<(), Fail> {
    let source = nested_keys(rt.alloc(), 100)?;
    let acc = compile(rt.alloc(), source.as_bytes())
        .ok()
        .ok_or("a schema")?;
    for (name, want) in [
        ("M95", None),
        ("M96", Some(Judged::Depth)),
        ("M100", Some(Judged::Depth)),
    ] {
        assert_eq!(rt;
            judged(rt.alloc(), &acc, name, "{\"x\":1}")?,
            want,
            "{name}"
        );
    }
    Ok(())
}
