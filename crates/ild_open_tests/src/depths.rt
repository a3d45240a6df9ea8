//! One HAMT at several depths of a value: it is read anew only where there is less room for its entries than before, or where they are
//! of another type.
use crate::hamts::{AT_A, node_over, root_over};
use crate::told::told;
use ild_compile::compile;
use ild_edges::MemStore;
use std::alloc::Global;
use std::test::Fail;

/// A HAMT that stands in a struct in another one has one level less than one beside that struct.
const SRC: &[u8] =
    b"type H {String:Int} representation advanced HAMT type F {String:Any} representation advanced HAMT \
    type Deep struct { h H } representation tuple \
    type Falling struct { near H deep Deep } representation tuple \
    type Rising struct { deep Deep near H } representation tuple \
    type Again struct { near H deep Deep last H lowest Deep } representation tuple \
    type Other struct { one H other F } representation tuple";

/// A type, its root block, in which H stands for the HAMT, and how many gets opening it takes: one is that of the root block, and each
/// reading of the HAMT takes one.
const CASES: [(&str, &[u8], u64); 5] = [
    ("H", b"H", 2),
    ("Falling", b"\x82H\x81H", 3),
    ("Rising", b"\x82\x81HH", 2),
    ("Again", b"\x84H\x81HH\x81H", 3),
    ("Other", b"\x82HH", 3),
];

/// What is told of a root block, where the get with this number fails.
fn told_of(alloc: Global, name: &str, block: &[u8], failing: u64) -> Option<&'static str> {
    let acc = compile(alloc, SRC).ok()?;
    let mut store = MemStore::new(alloc, &[failing], &[]).ok()?;
    let node = node_over(alloc, b'a', b"\x01", b"\x02")?;
    let hamt = root_over(alloc, AT_A, &node, &mut store)?;
    let mut root = Vec::new(alloc);
    for byte in block {
        if *byte == b'H' {
            root.extend_from_slice(&hamt).ok()?;
        } else {
            root.push(*byte).ok()?;
        }
    }
    told(alloc, &acc, name, &root, &mut store)
}

/// Whether each is opened with so many gets.
fn all_take(alloc: Global) -> Option<bool> {
    for (name, block, gets) in &CASES {
        let less = told_of(alloc, name, block, *gets)?;
        let all = told_of(alloc, name, block, gets.saturating_add(1))?;
        if less != "store" || all != "open" {
            return Some(false);
        }
    }
    Some(true)
}

#[test]
fn at_several_depths(rt: HostRuntime) -> Result<(), Fail> {
    assert!(rt; all_take(rt.alloc()) == Some(true));
    Ok(())
}
