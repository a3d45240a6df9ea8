//! The value at a document's view, loaded with the id of its block handed in, and without it.
use crate::hamts::{AT_A, node_over, root_map};
use ild_compile::compile;
use ild_data::{Octets, PadKeys, block_id};
use ild_edges::MemStore;
use ild_open::{BlockAt, OpenFault, load};
use ild_schema::Val;
use ild_view_doc::Doc;
use std::alloc::Global;
use std::test::Fail;

const SRC: &[u8] = b"type H {String:Int} representation advanced HAMT";

/// A root node with one entry, whose key is a, in the slot of a.
const FITS: &[u8] =
    b"\x82\x58\x20\0\0\0\0\0\0\0\0\0\0\0\0\x02\0\0\0\0\0\0\0\0\0\0\0\0\0\0\0\0\0\0\0\x81\x81\x82\x41a\x01";

/// The same in the slot of b, to which the key doesn't lead.
const STRAYS: &[u8] =
    b"\x82\x58\x20\0\0\0\0\0\0\0\0\0\0\0\0\x04\0\0\0\0\0\0\0\0\0\0\0\0\0\0\0\0\0\0\0\x81\x81\x82\x41a\x01";

/// What is told of the value at the view of a document, in a word.
fn told(alloc: Global, doc: &Doc<'_>, at: BlockAt<'_>, store: &mut MemStore) -> &'static str {
    let view = doc.view();
    match load(alloc, &view, at, 96, &PadKeys, store) {
        Ok(Val::Map(_)) => "map",
        Ok(_) => "other",
        Err(OpenFault::Block { id, why: _ }) => { if id == doc.root() { "root" } else { "node" } }
        Err(OpenFault::Store) => "store",
        Err(OpenFault::Memory) => "memory",
    }
}

/// What is told of the HAMT with a root node: the same with the id of its block as without.
fn told_of(alloc: Global, node: &[u8], store: &mut MemStore) -> Option<&'static str> {
    let acc = compile(alloc, SRC).ok()?;
    let ty = acc.type_named("H")?;
    if ty.0 >= acc.types() {
        return None;
    }
    let block = Octets::of(alloc, &root_map(alloc, node)?).ok()?;
    let doc = Doc::of(alloc, &acc, ty, block).ok()?;
    let plain = told(alloc, &doc, BlockAt::of(doc.block()), store);
    let named = told(alloc, &doc, BlockAt::named(doc.block(), doc.root()), store);
    if plain == named { Some(named) } else { None }
}

/// Whether an entry that strays is told of the root's block, and a node that lacks of its own.
fn all_told(alloc: Global) -> Option<bool> {
    let mut store = MemStore::new(alloc, &[], &[]).ok()?;
    let node = node_over(alloc, b'a', b"\x01", b"\x02")?;
    let mut above = AT_A.to_vec(alloc).ok()?;
    above.extend_from_slice(&block_id(&node).0).ok()?;
    let alone = told_of(alloc, FITS, &mut store)? == "map";
    let strays = told_of(alloc, STRAYS, &mut store)? == "root";
    let lacks = told_of(alloc, &above, &mut store)? == "node";
    store.add(&node).ok()?;
    let whole = told_of(alloc, &above, &mut store)? == "map";
    Some(alone && strays && lacks && whole)
}

#[test]
fn with_the_id_and_without(rt: HostRuntime) -> Result<(), Fail> {
    assert!(rt; all_told(rt.alloc()) == Some(true));
    Ok(())
}
