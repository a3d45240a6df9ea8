//! A key that makes a bucket of three a child: the child is put, and then the root. Where the first put fails nothing comes to be held, and where
//! the second does the child alone. The blocks are those of tests/paths/rows.py.
use crate::told::{doc_of, is_told, told};
use hex::decode;
use ild_compile::compile;
use ild_data::{PadKeys, block_id};
use ild_edges::{MemStore, Store};
use ild_schema::Accepted;
use ild_view_doc::Doc;
use std::alloc::Global;
use std::test::Fail;

const SRC: &str = "type H {String:Int} representation advanced HAMT";

/// The root block of three entries, the child of four, and their root block.
const THREE: &str =
    "a36468616d74825820010000000000000000000000000000000000000000000000000000000000000081838242000101824200020282420003036768617368416c67126a6275636b657453697a6503";

const FOURTH: &str =
    "8258201e0000000000000000000000000000000000000000000000000000000000000084818242000101818242000202818242000303818242000404";

const FOUR: &str =
    "a36468616d74825820010000000000000000000000000000000000000000000000000000000000000081d82a582500017112207d105d38fa26fdebff46249f5c31f5984d2cad8e59f621c94af6cd778d9a810e6768617368416c67126a6275\
        636b657453697a6503";

/// The edit, with its reply.
const SET_FOURTH: &str =
    "set /\0\x04 4 => root bafyreids7fv36w3i6v5twswmsklc27unt6s6wsiaxcpjj3jflvlbdki27m\n";

/// Whether a block is held.
fn is_held(alloc: Global, block: &str, store: &mut MemStore) -> Option<bool> {
    let id = block_id(&decode(alloc, block).ok()?);
    match store.get(&id) {
        Ok(found) => Some(found.is_some()),
        Err(_) => None,
    }
}

/// Whether of the two new blocks the root isn't held, and the child is or isn't.
fn is_left(alloc: Global, child: bool, store: &mut MemStore) -> Option<bool> {
    Some(is_held(alloc, FOURTH, store)? == child && !is_held(alloc, FOUR, store)?)
}

/// Whether the edit stops, and leaves the document.
fn stays(alloc: Global, doc: &mut Doc<'_>, store: &mut MemStore) -> Option<bool> {
    let (asked, _) = SET_FOURTH.split_once(" => ")?;
    let root = doc.root();
    let text = told(alloc, doc, asked, &PadKeys, store)?;
    Some(text.as_slice() == b"no 12 store\n".as_slice() && doc.root() == root)
}

/// Whether the edit stops where the puts with these numbers fail, with the child held or not; and whether it is then done over what is held, where
/// no put fails any more.
fn is_stopped(alloc: Global, acc: &Accepted, puts: &[u64], child: bool) -> Option<bool> {
    let mut store = MemStore::new(alloc, &[], puts).ok()?;
    store.add(&decode(alloc, THREE).ok()?).ok()?;
    let mut doc = doc_of(alloc, acc, "H", THREE)?;
    let stopped = stays(alloc, &mut doc, &mut store)? && is_left(alloc, child, &mut store)?;
    let again = puts.len() > 1 || is_told(alloc, &mut doc, SET_FOURTH, &PadKeys, &mut store)?;
    Some(stopped && again)
}

fn all_stopped(alloc: Global) -> Option<bool> {
    let acc = compile(alloc, SRC.as_bytes()).ok()?;
    let first = is_stopped(alloc, &acc, &[1], false)?;
    let from_first = is_stopped(alloc, &acc, &[1, 2, 3, 4], false)?;
    Some(first && from_first && is_stopped(alloc, &acc, &[2], true)?)
}

#[test]
fn at_each_put(rt: HostRuntime) -> Result<(), Fail> {
    if all_stopped(rt.alloc()) != Some(true) {
        return Err("a stop".into());
    }
    Ok(())
}
