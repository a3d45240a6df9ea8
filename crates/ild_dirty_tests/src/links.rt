//! Blocks that name their children by their ids.
ghost use Rattle.std.specs.Prelude.{◌≡◌, ◌≤◌, ◌+◌, length};
ghost use Rattle.ild_data.specs.Spell.{id_of};
ghost use Rattle.ild_dirty.specs.Batch.{AsksOnce};
ghost use Rattle.ild_edges.specs.Store.{Later};
ghost use Rattle.ild_dirty_tests.specs.Links.{id_in, links};

use ild_data::BlockId;
use ild_dirty::{Batch, Beneath, Child, OwnBlocks};
use ild_edges::Store;
use std::alloc::{AllocError, Global};

/// Blocks whose children's ids stand behind the first byte.
pub struct Links;

// The id that begins at a place.
fn id_in(block: &[u8], from: usize) -> BlockId
    requires { from + 32 ≤ length block.now }
    ensures { result.0 ≡ id_in block.now from }
{
    let mut id = [0; 32];
    id.copy_from_slice(&block[from..from + 32]);
    BlockId(id)
}

// A child at a place of the kind of links.
fn child_in(block: &[u8], from: usize) -> Child
    requires { from + 32 ≤ length block.now }
    ensures id { result.id.0 ≡ id_in block.now from }
    ensures kind { result.kind ≡ 0 }
{
    Child {
        id: id_in(block, from),
        kind: 0,
    }
}

impl Beneath for Links {
    ghost children = { λ t kind block. links kind block };

    fn children(&self, alloc: Global, kind: u32, block: &[u8]) -> Result<Vec<Child>, AllocError> {
        let mut found = Vec::new(alloc);
        if kind == 0 {
            if block.len() < 33 {
                return Ok(found);
            }
            found.push(child_in(block, 1))?;
            if block.len() < 65 {
                return Ok(found);
            }
            found.push(child_in(block, 33))?;
            return Ok(found);
        }
        Ok(found)
    }
}

/// What a caller knows of the store beneath when a batch over it has ended.
pub fn asks_once<K: Store>(own: &mut OwnBlocks, store: &mut K, id: &BlockId, bytes: &[u8])
    requires { id.now.0 ≡ id_of bytes.now }
    ensures { AsksOnce (K.moment store.old) (K.moment store.new) }
{
    let mut batch = Batch::new(own, store);
    let _ = batch.put(id, bytes);
}

/// Puts a block twice, over any store.
pub fn put_twice<K: Store>(store: &mut K, id: &BlockId, bytes: &[u8])
    requires { id.now.0 ≡ id_of bytes.now }
    ensures { Later (K.moment store.old) (K.moment store.new) }
{
    let _ = store.put(id, bytes);
    let _ = store.put(id, bytes);
}

/// What a caller knows of the store beneath behind a call that is generic over stores.
pub fn puts_nothing<K: Store>(own: &mut OwnBlocks, store: &mut K, id: &BlockId, bytes: &[u8])
    requires { id.now.0 ≡ id_of bytes.now }
    ensures { (K.moment store.new).puts ≡ (K.moment store.old).puts }
{
    let mut batch = Batch::new(own, store);
    put_twice(&mut batch, id, bytes);
}
