//! Blocks by their ids, for the store in memory.
ghost use Rattle.std.specs.Prelude.{◌≡◌, [], All, None, option_map, OnOk, OnErr};
ghost use Rattle.ild_data.specs.Spell.{id_of};
ghost use Rattle.ild_edges.specs.Own.{IsOwn};
ghost use Rattle.ild_edges.specs.Store.{Adds, block_at};

use ild_data::{BlockId, Octets};
use std::alloc::{AllocError, Global};
use std::collections::BTreeMap;

/// Blocks, each under its id.
#[derive(Drop)]
pub struct Blocks {
    rows: BTreeMap<[u8; 32], Octets>,
    ghost own: { All IsOwn rows.entries },
}

impl Blocks {
    ghost use Rattle.ild_edges.specs.Blocks.{blocks_of};

    /// No blocks.
    pub fn new(alloc: Global) -> Blocks
        ensures { blocks_of result ≡ [] }
    {
        Blocks {
            rows: BTreeMap::new(alloc),
        }
    }

    /// The block under an id.
    pub fn get(&self, id: &BlockId) -> Option<&Octets>
        ensures { option_map (λ b. b.now) result ≡ block_at (blocks_of self.now) id.now.0 }
    {
        self.rows.get(&id.0)
    }

    /// Puts a block under its id, where none is.
    pub fn insert(&mut self, alloc: Global, id: &BlockId, block: &[u8]) -> Result<(), AllocError>
        requires own { id.now.0 ≡ id_of block.now }
        requires free { block_at (blocks_of self.old) (id_of block.now) ≡ None }
        ensures ok { OnOk result (Adds block.now (blocks_of self.old) (blocks_of self.new)) }
        ensures err { OnErr result (blocks_of self.new ≡ blocks_of self.old) }
    {
        let block = Octets::of(alloc, block)?;
        self.rows.insert(id.0, block)?;
        Ok(())
    }
}
