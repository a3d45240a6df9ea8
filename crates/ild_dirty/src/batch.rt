//! A batch: a store whose puts stay in memory.
ghost use Rattle.std.specs.Prelude.{◌≡◌, ◌∷◌, ◌++◌, [], ◌⊎◌};
ghost use Rattle.ild_data.specs.Spell.{id_of};
ghost use Rattle.ild_edges.specs.Store.{Gets, Puts, Moment};
ghost use Rattle.ild_dirty.specs.Batch.{AsksOnce, batch_at};

use crate::OwnBlocks;
use ild_data::{BlockId, Octets};
use ild_edges::{EdgeErr, Store};

/// A store over another: what is put stays among the batch's own blocks, and what is got is looked for there first.
#[derive(Drop)]
pub struct Batch<'k, K> {
    pub(crate) store: &'k mut K,
    pub(crate) own: &'k mut OwnBlocks,
    gets: u64,
    puts: u64,
}

impl<'k, K: Store> Batch<'k, K> {
    /// A batch with these blocks of its own, over the store over which they came.
    pub fn new(own: &'k mut OwnBlocks, store: &'k mut K) -> Batch<'k, K>
        ensures same_store { (result.store.ghost_name ≡ store.entry.ghost_name) × (result.store.now ≡ store.old) }
        ensures same_own { (result.own.ghost_name ≡ own.entry.ghost_name) × (result.own.now ≡ own.old) }
        ensures counts { (result.gets ≡ 0) × (result.puts ≡ 0) }
    {
        Batch {
            store,
            own,
            gets: 0,
            puts: 0,
        }
    }

    /// The batch's own blocks, in the order in which they came.
    pub fn own(&self) -> &OwnBlocks
        ensures { result.now ≡ self.now.own.now }
    {
        self.own
    }
}

impl<'k, K: Store> Store for Batch<'k, K> {
    ghost moment = { λ t. batch_at K.moment t };

    fn get(&mut self, id: &BlockId) -> Result<Option<Octets>, EdgeErr>
        ensures gets { Gets (batch_at K.moment self.old) id.now.0 result (batch_at K.moment self.new) }
        ensures asks { AsksOnce (K.moment self.old.store.now) (K.moment self.new.store.now) }
        ensures own { self.new.own.now ≡ self.old.own.now }
        ensures same_references { (self.new.store.ghost_name ≡ self.old.store.ghost_name) × (self.new.own.ghost_name ≡ self.old.own.ghost_name) }
    {
        self.gets = self.gets.saturating_add(1);
        match self.own.get(id) {
            Some(block) => Ok(Some(block.copy()?)),
            None => self.store.get(id),
        }
    }

    fn put(&mut self, id: &BlockId, bytes: &[u8]) -> Result<Option<Octets>, EdgeErr>
        requires { id.now.0 ≡ id_of bytes.now }
        ensures puts { Puts (batch_at K.moment self.old) bytes.now result (batch_at K.moment self.new) }
        ensures asks { AsksOnce (K.moment self.old.store.now) (K.moment self.new.store.now) }
        ensures own { (self.new.own.now ≡ self.old.own.now) ⊎ (self.new.own.now ≡ self.old.own.now ++ bytes.now ∷ []) }
        ensures same_references { (self.new.store.ghost_name ≡ self.old.store.ghost_name) × (self.new.own.ghost_name ≡ self.old.own.ghost_name) }
    {
        self.puts = self.puts.saturating_add(1);
        if let Some(block) = self.own.get(id) {
            return if block.as_slice() == bytes {
                Ok(None)
            } else {
                Ok(Some(block.copy()?))
            };
        }
        if let Some(block) = self.store.get(id)? {
            if block.as_slice() == bytes {
                self.own.push(id, block)?;
                return Ok(None);
            }
            return Ok(Some(block));
        }
        let alloc = self.own.allocator();
        self.own.push(id, Octets::of(alloc, bytes)?)?;
        Ok(None)
    }
}
