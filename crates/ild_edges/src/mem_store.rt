//! A store in memory, with gets and puts that fail by number.
ghost use Rattle.std.specs.Prelude.{◌≡◌, ◌≢◌, ◌↔◌, [], None, Contains, IfOk, OnOk, OnErr, IsSome};
ghost use Rattle.ild_data.specs.Spell.{id_of};
ghost use Rattle.ild_edges.specs.Count.{bumped};
ghost use Rattle.ild_edges.specs.Store.{Gets, Puts, Adds, block_at};

use crate::blocks::Blocks;
use crate::due::is_due;
use crate::{EdgeErr, Store};
use ild_data::{BlockId, Octets, block_id};
use std::alloc::{AllocError, Global};

/// A store in memory, which tells its blocks. The gets and the puts whose numbers, each from 1 on, stand in their lists
/// fail, and no other.
#[derive(Drop)]
pub struct MemStore {
    alloc: Global,
    held: Blocks,
    fail_gets: Vec<u64>,
    fail_puts: Vec<u64>,
    gets: u64,
    puts: u64,
    lacks: u64,
    faults: u64,
}

impl MemStore {
    ghost use Rattle.ild_edges.specs.MemStore.{store_state, new_store};

    /// A store that holds no block.
    pub fn new(alloc: Global, fail_gets: &[u64], fail_puts: &[u64]) -> Result<MemStore, AllocError>
        ensures { IfOk result (λ store. store_state store ≡ new_store fail_gets.now fail_puts.now) }
    {
        Ok(MemStore {
            alloc,
            held: Blocks::new(alloc),
            fail_gets: fail_gets.to_vec(alloc)?,
            fail_puts: fail_puts.to_vec(alloc)?,
            gets: 0,
            puts: 0,
            lacks: 0,
            faults: 0,
        })
    }

    /// Stores a block under its id, and counts as no put. Of two blocks with one id the first stays.
    pub fn add(&mut self, block: &[u8]) -> Result<(), AllocError>
        ensures added { block_at (store_state self.old).blocks (id_of block.now) ≡ None → OnOk result (Adds block.now (store_state self.old).blocks (store_state self.new).blocks) }
        ensures stays { IsSome (block_at (store_state self.old).blocks (id_of block.now)) → store_state self.new ≡ store_state self.old }
        ensures beside { store_state self.new ≡ record (store_state self.old) { blocks = (store_state self.new).blocks } }
        ensures err { OnErr result (store_state self.new ≡ store_state self.old) }
    {
        let id = block_id(block);
        if self.held.get(&id).is_none() {
            self.held.insert(self.alloc, &id, block)?;
        }
        Ok(())
    }
}

impl Store for MemStore {
    ghost use Rattle.ild_edges.specs.MemStore.{store_state, moment_of, after_get, after_put};

    ghost moment = { λ m. moment_of (store_state m) };

    fn get(&mut self, id: &BlockId) -> Result<Option<Octets>, EdgeErr>
        ensures gets { Gets (moment_of (store_state self.old)) id.now.0 result (moment_of (store_state self.new)) }
        ensures left { store_state self.new ≡ after_get (store_state self.old) result }
        ensures due { (result ≡ Err EdgeErr.Failed) ↔ Contains (store_state self.old).fail_gets (bumped (store_state self.old).gets) }
        ensures never { (store_state self.old).fail_gets ≡ [] → result ≢ Err EdgeErr.Failed }
    {
        self.gets = self.gets.saturating_add(1);
        if is_due(&self.fail_gets, self.gets) {
            self.faults = self.faults.saturating_add(1);
            return Err(EdgeErr::Failed);
        }
        match self.held.get(id) {
            Some(block) => Ok(Some(block.copy()?)),
            None => {
                self.lacks = self.lacks.saturating_add(1);
                Ok(None)
            }
        }
    }

    fn put(&mut self, id: &BlockId, bytes: &[u8]) -> Result<Option<Octets>, EdgeErr>
        requires { id.now.0 ≡ id_of bytes.now }
        ensures puts { Puts (moment_of (store_state self.old)) bytes.now result (moment_of (store_state self.new)) }
        ensures left { store_state self.new ≡ after_put (store_state self.old) result (store_state self.new).blocks }
        ensures due { (result ≡ Err EdgeErr.Failed) ↔ Contains (store_state self.old).fail_puts (bumped (store_state self.old).puts) }
        ensures never { (store_state self.old).fail_puts ≡ [] → result ≢ Err EdgeErr.Failed }
    {
        self.puts = self.puts.saturating_add(1);
        if is_due(&self.fail_puts, self.puts) {
            self.faults = self.faults.saturating_add(1);
            return Err(EdgeErr::Failed);
        }
        if let Some(block) = self.held.get(id) {
            return if block.as_slice() == bytes {
                Ok(None)
            } else {
                Ok(Some(block.copy()?))
            };
        }
        self.held.insert(self.alloc, id, bytes)?;
        Ok(None)
    }
}
