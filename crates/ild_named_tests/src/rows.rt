//! Values under bare roots are given roots that name their schema, and shown by these alone.
use ild_compile::compile;
use ild_data::{BlockId, Octets, Sha256Keys, block_id};
use ild_edges::{MemStore, Store};
use ild_named::{named_block, schema_block};
use ild_run_named::{MigrateFault, migrate, show_named};
use ild_run_show::ShowFault;
use std::alloc::Global;
use std::test::Fail;

const MAP: &str = "type N {String:Int}";

const ANY: &str = "type A any";

/// The map of `a` to 1.
const ONE: &[u8] = b"\xa1\x61a\x01";

/// What stands in the root of a map before its value, and behind it up to the schema's id.
const BEFORE: &[u8] = b"\xa3\x64type\x61N\x65value";

const BEHIND: &[u8] = b"\x66schema\xd8\x2a\x58\x25\x00\x01\x71\x12\x20";

/// The value of a type that stands as this block is given a root that names the type.
fn migrated(
    alloc: Global,
    source: &str,
    name: &str,
    block: &[u8],
    store: &mut MemStore,
) -> Result<BlockId, MigrateFault> {
    let Ok(acc) = compile(alloc, source.as_bytes()) else {
        return Err(MigrateFault::Memory);
    };
    let Some(ty) = acc.type_named(name) else {
        return Err(MigrateFault::Memory);
    };
    if ty.0 >= acc.types() {
        return Err(MigrateFault::Memory);
    }
    let root = block_id(block);
    migrate(alloc, &acc, ty, name, source, &root, &Sha256Keys, store)
}

/// The text of the value under a root, or a word for why there is none: of whose block.
fn shown(alloc: Global, id: BlockId, schema: BlockId, store: &mut MemStore) -> Option<Octets> {
    let text = match show_named(alloc, &id, &Sha256Keys, store) {
        Ok(text) => return Octets::of(alloc, text.as_str().as_bytes()).ok(),
        Err(ShowFault::Block { id: at, why: _ }) => {
            if at == id {
                "root"
            } else if at == schema {
                "schema"
            } else {
                "node"
            }
        }
        Err(ShowFault::Reserved) => "reserved",
        Err(ShowFault::Store) => "store",
        Err(ShowFault::Memory) => "memory",
    };
    Octets::of(alloc, text.as_bytes()).ok()
}

fn shows(alloc: Global, id: BlockId, schema: BlockId, text: &str, store: &mut MemStore) -> bool {
    match shown(alloc, id, schema, store) {
        Some(found) => found.as_slice() == text.as_bytes(),
        None => false,
    }
}

/// Whether the root of a map is spelled so, its value is shown, and a bare root is refused.
fn map_is_named(alloc: Global) -> Option<bool> {
    let mut store = MemStore::new(alloc, &[], &[]).ok()?;
    store.add(ONE).ok()?;
    let id = migrated(alloc, MAP, "N", ONE, &mut store).ok()?;
    let text = schema_block(alloc, MAP).ok()?;
    let schema = block_id(text.as_slice());
    let mut wanted = BEFORE.to_vec(alloc).ok()?;
    wanted.extend_from_slice(ONE).ok()?;
    wanted.extend_from_slice(BEHIND).ok()?;
    wanted.extend_from_slice(&schema.0).ok()?;
    let found = store.get(&id).ok()??;
    let spelled = found.as_slice() == wanted.as_slice();
    let named = shows(alloc, id, schema, "{\"a\":1}", &mut store);
    let bare = shows(alloc, block_id(ONE), schema, "root", &mut store);
    Some(spelled && named && bare)
}

/// So many lists, one in another.
fn nested(alloc: Global, levels: usize) -> Option<Vec<u8>> {
    let mut block = Vec::new(alloc);
    for _ in 1..levels {
        block.push(0x81).ok()?;
    }
    block.push(0x80).ok()?;
    Some(block)
}

/// How a value of so many levels is given a root: 1 where it is, and 2 where it is too deep.
fn depth_told(alloc: Global, levels: usize) -> Option<u8> {
    let mut store = MemStore::new(alloc, &[], &[]).ok()?;
    let block = nested(alloc, levels)?;
    store.add(&block).ok()?;
    match migrated(alloc, ANY, "A", &block, &mut store) {
        Ok(_) => Some(1),
        Err(MigrateFault::Depth) => Some(2),
        Err(_) => None,
    }
}

/// Whether `text` is shown of the root over the map that names this type and this schema.
fn root_shows(alloc: Global, source: &str, name: &str, text: &str) -> Option<bool> {
    let mut store = MemStore::new(alloc, &[], &[]).ok()?;
    let block = schema_block(alloc, source).ok()?;
    let schema = block_id(block.as_slice());
    let root = named_block(alloc, name, &schema, ONE).ok()?;
    let id = block_id(root.as_slice());
    store.add(root.as_slice()).ok()?;
    let lacks = shows(alloc, id, schema, "schema", &mut store);
    store.add(block.as_slice()).ok()?;
    Some(lacks && shows(alloc, id, schema, text, &mut store))
}

#[test]
fn a_map_is_named(rt: HostRuntime) -> Result<(), Fail> {
    assert!(rt; map_is_named(rt.alloc()) == Some(true));
    Ok(())
}

#[test]
fn a_level_less_than_in_a_bare_root(rt: HostRuntime) -> Result<(), Fail> {
    assert!(rt; depth_told(rt.alloc(), 95) == Some(1));
    assert!(rt; depth_told(rt.alloc(), 96) == Some(2));
    Ok(())
}

#[test]
fn the_block_at_fault(rt: HostRuntime) -> Result<(), Fail> {
    assert!(rt; root_shows(rt.alloc(), MAP, "N", "{\"a\":1}") == Some(true));
    assert!(rt; root_shows(rt.alloc(), MAP, "M", "root") == Some(true));
    assert!(rt; root_shows(rt.alloc(), "type N [Int]", "N", "root") == Some(true));
    assert!(rt; root_shows(rt.alloc(), "type N", "N", "schema") == Some(true));
    Ok(())
}
