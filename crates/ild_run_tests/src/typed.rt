//! A value with a node that is made and shown over the objects in memory, where a put and a get fail. Blocks and CIDs are those of
//! tests/conformance/values.py.
use crate::sessions::owned;
use ild_edges::{MemInputs, MemSink, MemStore};
use ild_run::run;
use std::alloc::Global;
use std::test::Fail;

const HAMT: &str = "type H {String:Int} representation advanced HAMT";

/// Four keys whose hashes agree in their first byte, so that they stand in a child.
const FOUR: &str = "{\"k113\":1,\"k120\":1,\"k132\":1,\"k146\":1}";

/// The root block, which links to the child.
const ROOT: &str = "bafyreicxksgntzkylb6pzulyinp6savpkbrri5bbtegrm4pgal75hitagq";

/// What `new` tells of them.
const CREATED: &str = "root bafyreicxksgntzkylb6pzulyinp6savpkbrri5bbtegrm4pgal75hitagq\n";

/// What `show` tells.
const SHOWN: &str = "ok {\"k113\":1,\"k120\":1,\"k132\":1,\"k146\":1}\n";

/// What it tells where the root isn't held.
const MISSING: &str =
    "fault 4 root missing bafyreicxksgntzkylb6pzulyinp6savpkbrri5bbtegrm4pgal75hitagq\n";

const FAULT: &str = "fault 6 store\n";

/// Whether words over the schema and the four entries as a value have this answer.
fn is_told(
    alloc: Global,
    words: &[&str],
    store: &mut MemStore,
    text: &str,
    status: u8,
) -> Option<bool> {
    let words = owned(alloc, words).ok()?;
    let mut inputs = MemInputs::new(alloc, &[]).ok()?;
    inputs.add("s", HAMT.as_bytes()).ok()?;
    inputs.add("v", FOUR.as_bytes()).ok()?;
    let mut out = MemSink::new(alloc, &[]).ok()?;
    let ended = run(alloc, &words, &mut inputs, store, &mut out).code();
    Some(out.bytes() == text.as_bytes() && ended == status)
}

fn is_made(alloc: Global, store: &mut MemStore, text: &str, status: u8) -> Option<bool> {
    is_told(alloc, &["new", "s", "H", "v"], store, text, status)
}

fn is_shown(alloc: Global, store: &mut MemStore, text: &str, status: u8) -> Option<bool> {
    is_told(alloc, &["show", "s", "H", ROOT], store, text, status)
}

/// The child is put first; where the root's put fails, no value stands there, and another call puts both.
fn a_put_fails(alloc: Global) -> Option<bool> {
    let mut store = MemStore::new(alloc, &[], &[2]).ok()?;
    let refused = is_made(alloc, &mut store, FAULT, 6)? && is_shown(alloc, &mut store, MISSING, 4)?;
    let again = is_made(alloc, &mut store, CREATED, 0)? && is_shown(alloc, &mut store, SHOWN, 0)?;
    Some(refused && again)
}

/// The third get, behind one that found no root, is that of the child.
fn a_get_fails(alloc: Global) -> Option<bool> {
    let mut store = MemStore::new(alloc, &[3], &[]).ok()?;
    let made = is_shown(alloc, &mut store, MISSING, 4)? && is_made(alloc, &mut store, CREATED, 0)?;
    let refused = is_shown(alloc, &mut store, FAULT, 6)?;
    Some(made && refused && is_shown(alloc, &mut store, SHOWN, 0)?)
}

#[test]
fn a_node_goes_before_its_root(rt: HostRuntime) -> Result<(), Fail> {
    let put = a_put_fails(rt.alloc());
    assert!(rt; put == Some(true) && a_get_fails(rt.alloc()) == Some(true));
    Ok(())
}
