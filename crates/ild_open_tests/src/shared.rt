//! HAMTs whose roots differ over the same nodes: a node that they share is got once, where it is read as the same in no less room.
use crate::hamts::{AT_A, node_over, root_over, root_over_both};
use crate::told::told;
use ild_compile::compile;
use ild_edges::MemStore;
use std::alloc::Global;
use std::test::Fail;

/// A HAMT that stands in a struct in another one has one level less than one beside that struct.
const SRC: &[u8] =
    b"type H {String:Int} representation advanced HAMT type F {String:Any} representation advanced HAMT \
    type Pair struct { one H other H } representation tuple \
    type Three struct { one H other H last H } representation tuple \
    type Other struct { one H other F } representation tuple \
    type Deep struct { h H } representation tuple \
    type Falling struct { near H deep Deep } representation tuple";

/// A type, its root block, in which R stands for a root over the node of a, and S for one over that and the node of b; and how many gets
/// opening it takes: one is that of the root block, and each reading of a node takes one.
const CASES: [(&str, &[u8], u64); 6] = [
    ("Pair", b"\x82RR", 2),
    ("Pair", b"\x82RS", 3),
    ("Pair", b"\x82SR", 3),
    ("Three", b"\x83RSR", 3),
    ("Other", b"\x82RS", 4),
    ("Falling", b"\x82R\x81S", 4),
];

/// What is told of a root block, where the get with this number fails.
fn told_of(alloc: Global, name: &str, block: &[u8], failing: u64) -> Option<&'static str> {
    let acc = compile(alloc, SRC).ok()?;
    let mut store = MemStore::new(alloc, &[failing], &[]).ok()?;
    let one = node_over(alloc, b'a', b"\x01", b"\x02")?;
    let other = node_over(alloc, b'b', b"\x01", b"\x02")?;
    let alone = root_over(alloc, AT_A, &one, &mut store)?;
    let both = root_over_both(alloc, &one, &other, &mut store)?;
    let mut root = Vec::new(alloc);
    for byte in block {
        match *byte {
            b'R' => root.extend_from_slice(&alone).ok()?,
            b'S' => root.extend_from_slice(&both).ok()?,
            other => root.push(other).ok()?,
        }
    }
    told(alloc, &acc, name, &root, &mut store)
}

/// Whether each is opened with so many gets.
fn all_take(alloc: Global) -> Option<bool> {
    for (name, block, gets) in &CASES {
        let less = told_of(alloc, name, block, *gets)?;
        let all = told_of(alloc, name, block, gets.saturating_add(1))?;
        if less != "store" || all != "open" {
            return Some(false);
        }
    }
    Some(true)
}

#[test]
fn over_the_same_nodes(rt: HostRuntime) -> Result<(), Fail> {
    assert!(rt; all_take(rt.alloc()) == Some(true));
    Ok(())
}
