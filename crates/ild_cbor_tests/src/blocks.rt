//! Each call of the writer, beside python3's cbor2. Whole trees, read from JSON and printed again, are cases of `new` and `show`
//! (`DATA` of tests/conformance/tables.py, and tests/conformance/texts.py).
use ild_cbor::check;
use ild_data::{CidRef, Int, Octets};
use ild_emit::Emit;
use ild_json::read;
use std::alloc::Global;
use std::test::Fail;

/// The first calls, of the head of a list and its first items.
fn begun(alloc: Global) -> Result<Emit, Fail> {
    let mut emit = Emit::new(alloc);
    emit.head(4, 5)?;
    emit.int(Int::new(-25).ok_or("in range")?)?;
    emit.text("é")?;
    Ok(emit)
}

#[test]
fn each_call_of_the_writer(rt: HostRuntime) -> Result<(), Fail> {
    let mut emit = begun(rt.alloc())?;
    emit.bytes(b"\x01\x02")?;
    emit.simple(None)?;
    emit.simple(Some(true))?;
    // cbor2.dumps([-25, "é", b"\x01\x02", None, True])
    assert_eq!(rt;
        emit.finish().as_slice(),
        b"\x85\x38\x18\x62\xc3\xa9\x42\x01\x02\xf6\xf5".as_slice()
    );
    Ok(())
}

/// Version 1, DAG-CBOR, no hash and no digest.
const SHORT: [u8; 4] = [0x01, 0x71, 0, 0];

/// The block of a link to it.
const LINK: &[u8] = b"\xd8\x2a\x45\x00\x01\x71\x00\x00";

#[test]
fn links(rt: HostRuntime) -> Result<(), Fail> {
    let cid = CidRef::read(&SHORT)?;
    let mut emit = Emit::new(rt.alloc());
    emit.link(&cid)?;
    assert_eq!(rt; emit.finish().as_slice(), LINK);
    let node = check(LINK).ok().ok_or("a block")?;
    let link = node.link().ok_or("a link")?;
    assert_eq!(rt; link.whole(), SHORT.as_slice());
    Ok(())
}

/// The block of the tree of a text.
fn written(alloc: Global, text: &str) -> Result<Octets, Fail> {
    let tree = read(alloc, text.as_bytes()).ok().ok_or("a json text")?;
    let mut emit = Emit::new(alloc);
    emit.tree(&tree)?;
    Ok(emit.finish())
}

/// The block of a node.
fn copied(alloc: Global, block: &[u8]) -> Result<Octets, Fail> {
    let node = check(block).ok().ok_or("a block")?;
    let mut emit = Emit::new(alloc);
    emit.node(&node)?;
    Ok(emit.finish())
}

#[test]
fn trees_and_nodes(rt: HostRuntime) -> Result<(), Fail> {
    let block = written(rt.alloc(), "{\"b\":1,\"aa\":[null]}")?;
    // cbor2.dumps({"b": 1, "aa": [None]}, canonical=True)
    let wanted = b"\xa2\x61\x62\x01\x62\x61\x61\x81\xf6".as_slice();
    assert_eq!(rt; block.as_slice(), wanted);
    assert_eq!(rt; copied(rt.alloc(), wanted)?.as_slice(), wanted);
    Ok(())
}
