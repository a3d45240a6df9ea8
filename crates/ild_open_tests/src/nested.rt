//! HAMTs that stand in one another, over and over: each of their blocks is got once.
use crate::hamts::{AT_A, AT_B, EMPTY, node_over, root_map, root_over};
use crate::told::told;
use ild_compile::compile;
use ild_edges::MemStore;
use std::alloc::Global;
use std::test::Fail;

const SRC: &[u8] = b"type H {String:H} representation advanced HAMT";

/// How many HAMTs stand in one another above an empty one: each takes five of 96 levels.
const DEEP: usize = 18;

/// What is told of a HAMT that stands four times in each of those around it, where the get with this number fails.
fn one(alloc: Global, failing: u64) -> Option<&'static str> {
    let acc = compile(alloc, SRC).ok()?;
    let mut store = MemStore::new(alloc, &[failing], &[]).ok()?;
    let mut root = root_map(alloc, EMPTY)?;
    for _ in 0..DEEP {
        let node = node_over(alloc, b'a', &root, &root)?;
        root = root_over(alloc, AT_A, &node, &mut store)?;
    }
    told(alloc, &acc, "H", &root, &mut store)
}

/// The same of two HAMTs that take turns.
fn two(alloc: Global, failing: u64) -> Option<&'static str> {
    let acc = compile(alloc, SRC).ok()?;
    let mut store = MemStore::new(alloc, &[failing], &[]).ok()?;
    let mut first = root_map(alloc, EMPTY)?;
    let mut second = root_map(alloc, EMPTY)?;
    for _ in 0..DEEP {
        let node = node_over(alloc, b'a', &first, &second)?;
        let other = node_over(alloc, b'b', &first, &second)?;
        first = root_over(alloc, AT_A, &node, &mut store)?;
        second = root_over(alloc, AT_B, &other, &mut store)?;
    }
    told(alloc, &acc, "H", &first, &mut store)
}

/// Whether the one is opened with so many gets, and the two with so many.
fn both_take(alloc: Global, of_one: u64, of_two: u64) -> Option<bool> {
    let less = one(alloc, of_one)? == "store" && two(alloc, of_two)? == "store";
    let one_all = one(alloc, of_one.saturating_add(1))?;
    let two_all = two(alloc, of_two.saturating_add(1))?;
    Some(less && one_all == "open" && two_all == "open")
}

/// As many gets are asked as there are blocks: of the one its root block and 18 nodes, of the two 17 nodes each, and beside these the
/// root block and the node of the outermost.
#[test]
fn each_block_is_got_once(rt: HostRuntime) -> Result<(), Fail> {
    assert!(rt; both_take(rt.alloc(), 19, 36) == Some(true));
    Ok(())
}
