//! Calls that take memory, above the sizes at which one that always gave up could pass for one that works: those that no command makes of
//! large data. The others are tried over the built program (`big_data` and `big_values` of tests/conformance/new_edges.py).
use ild_cbor::check;
use ild_data::{Octets, Tree, Txt};
use ild_emit::Emit;
use std::alloc::{AllocError, Global};
use std::test::Fail;

/// A text of over a megabyte.
fn long(alloc: Global) -> Result<Txt, AllocError> {
    let mut text = String::new(alloc);
    for _ in 0..120_000 {
        text.push_str("abcdefghij")?;
    }
    Ok(Txt::from_string(text))
}

/// The block of a list of that text and its bytes.
fn block(alloc: Global) -> Result<Octets, AllocError> {
    let text = long(alloc)?;
    let mut emit = Emit::new(alloc);
    emit.head(4, 2)?;
    emit.text(text.as_str())?;
    emit.bytes(text.as_str().as_bytes())?;
    Ok(emit.finish())
}

#[test]
fn a_node_of_over_a_megabyte(rt: HostRuntime) -> Result<(), Fail> {
    let block = block(rt.alloc())?;
    // a head of one byte, and two of five
    assert_eq!(rt; block.as_slice().len(), 2_400_011);
    let node = check(block.as_slice()).ok().ok_or("a block")?;
    let mut emit = Emit::new(rt.alloc());
    emit.node(&node)?;
    assert!(rt; emit.finish().as_slice() == block.as_slice());
    Ok(())
}

#[test]
fn a_copy_of_over_a_megabyte(rt: HostRuntime) -> Result<(), Fail> {
    let text = long(rt.alloc())?;
    match Tree::Text(text).copy()? {
        Tree::Text(copy) => assert_eq!(rt; copy.as_str().len(), 1_200_000),
        _ => assert!(rt; false),
    }
    Ok(())
}
