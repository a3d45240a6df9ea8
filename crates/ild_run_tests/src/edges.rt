//! Each call once, and the failing ones by their numbers.
use ild_data::{BlockId, Octets, block_id};
use ild_edges::{EdgeErr, Inputs, MemInputs, MemSink, MemStore, Sink, Store, Taken};
use std::alloc::Global;
use std::test::Fail;

/// What a take gives, as a text for a table.
fn take_by<I: Inputs>(inputs: &mut I, name: &str) -> &'static str {
    match inputs.take(name) {
        Ok(Taken::Bytes(bytes)) => match bytes.as_slice() {
            b"one" => "one",
            b"two" => "two",
            _ => "bytes",
        },
        Ok(Taken::Absent) => "absent",
        Ok(Taken::Long) => "long",
        Err(EdgeErr::Failed) => "failed",
        Err(EdgeErr::Memory) => "memory",
    }
}

fn shown(answer: Result<Option<Octets>, EdgeErr>) -> &'static str {
    match answer {
        Ok(Some(bytes)) => match bytes.as_slice() {
            b"\xa0" => "a0",
            b"\x80" => "80",
            _ => "bytes",
        },
        Ok(None) => "none",
        Err(EdgeErr::Failed) => "failed",
        Err(EdgeErr::Memory) => "memory",
    }
}

fn get_by<K: Store>(store: &mut K, id: &BlockId) -> &'static str {
    shown(store.get(id))
}

fn put_by<K: Store>(store: &mut K, block: &[u8]) -> &'static str {
    shown(store.put(&block_id(block), block))
}

fn write_by<W: Sink>(sink: &mut W, piece: &[u8]) -> &'static str {
    match sink.write(piece) {
        Ok(()) => "ok",
        Err(EdgeErr::Failed) => "failed",
        Err(EdgeErr::Memory) => "memory",
    }
}

fn takes(alloc: Global) -> Option<bool> {
    let mut inputs = MemInputs::new(alloc, &[2, 5]).ok()?;
    inputs.add("a", b"two").ok()?;
    inputs.add("b", b"two").ok()?;
    inputs.add("a", b"one").ok()?;
    let mut same = true;
    for (name, wanted) in [
        ("a", "one"),
        ("a", "failed"),
        ("b", "two"),
        ("c", "absent"),
        ("c", "failed"),
        ("a", "one"),
    ] {
        same &= take_by(&mut inputs, name) == wanted;
    }
    Some(same)
}

fn puts(alloc: Global) -> Option<bool> {
    let mut store = MemStore::new(alloc, &[], &[1]).ok()?;
    store.add(b"\x80").ok()?;
    store.add(b"\x80").ok()?;
    let first = put_by(&mut store, b"\xa0") == "failed" && put_by(&mut store, b"\xa0") == "none";
    Some(first && put_by(&mut store, b"\x80") == "none")
}

fn gets(alloc: Global) -> Option<bool> {
    let mut store = MemStore::new(alloc, &[2], &[]).ok()?;
    store.add(b"\x80").ok()?;
    let list = block_id(b"\x80");
    let first = get_by(&mut store, &list) == "80" && get_by(&mut store, &list) == "failed";
    let none = get_by(&mut store, &block_id(b"")) == "none";
    Some(
        first
            && none
            && put_by(&mut store, b"\xa0") == "none"
            && get_by(&mut store, &block_id(b"\xa0")) == "a0",
    )
}

fn writes(alloc: Global) -> Option<bool> {
    let mut sink = MemSink::new(alloc, &[2]).ok()?;
    let first = write_by(&mut sink, b"ok ") == "ok" && write_by(&mut sink, b"no") == "failed";
    Some(first && write_by(&mut sink, b"x\n") == "ok" && sink.bytes() == b"ok x\n".as_slice())
}

#[test]
fn each_call_once(rt: HostRuntime) -> Result<(), Fail> {
    let alloc = rt.alloc();
    let inputs = takes(alloc) == Some(true) && writes(alloc) == Some(true);
    assert!(rt; inputs && puts(alloc) == Some(true) && gets(alloc) == Some(true));
    Ok(())
}
