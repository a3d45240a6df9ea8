//! Edits over a store that tells nothing of its content, of which each put fails in turn.
ghost use Rattle.std.specs.Prelude.{◌≡◌, ◌≢◌, [], None, IfOk, IfSome};
ghost use Rattle.ild_data.specs.Spell.{id_of};

use crate::beside::{COLLAPSE, Failing, SPLIT, fails_at, root_in};
use crate::edited::{edit, ending};
use ild_data::{BlockId, Octets, PadKeys};
use ild_edges::{EdgeErr, MemStore, Store};
use std::alloc::{AllocError, Global};
use std::test::Fail;

/// A store in memory that tells nothing of its content, of which the put with a number, from 1 on, fails; and the ids of the blocks that were
/// to be put.
#[derive(Drop)]
struct Untold {
    held: MemStore,
    failing: u64,
    asked: Vec<BlockId>,
    gets: u64,
    puts: u64,
    lacks: u64,
    faults: u64,
}

impl Untold {
    fn new(alloc: Global, failing: u64) -> Result<Untold, AllocError> {
        Ok(Untold {
            held: MemStore::new(alloc, &[], &[])?,
            failing,
            asked: Vec::new(alloc),
            gets: 0,
            puts: 0,
            lacks: 0,
            faults: 0,
        })
    }
}

/// The block under an id.
fn held(store: &mut MemStore, id: &BlockId) -> Result<Option<Octets>, EdgeErr>
    ensures { IfOk result (λ block. IfSome block (λ b. id_of b ≡ id.now.0)) }
{
    match store.get(id) {
        Ok(Some(block)) => Ok(Some(block)),
        Ok(None) => Ok(None),
        Err(fault) => Err(fault),
    }
}

/// Puts a block, and hands back the other bytes that are kept under its id.
fn keep(store: &mut MemStore, id: &BlockId, bytes: &[u8]) -> Result<Option<Octets>, EdgeErr>
    requires { id.now.0 ≡ id_of bytes.now }
    ensures { IfOk result (λ kept. IfSome kept (λ b. (id_of b ≡ id.now.0) × (b ≢ bytes.now))) }
{
    match store.put(id, bytes) {
        Ok(Some(kept)) => Ok(Some(kept)),
        Ok(None) => Ok(None),
        Err(fault) => Err(fault),
    }
}

impl Store for Untold {
    ghost moment = { λ s. record { blocks = None; given = None; gets = s.gets; puts = s.puts; lacks = s.lacks; faults = s.faults; beneath = [] } };

    fn get(&mut self, id: &BlockId) -> Result<Option<Octets>, EdgeErr> {
        self.gets = self.gets.saturating_add(1);
        match held(&mut self.held, id) {
            Ok(Some(block)) => Ok(Some(block)),
            Ok(None) => {
                self.lacks = self.lacks.saturating_add(1);
                Ok(None)
            }
            Err(EdgeErr::Failed) => {
                self.faults = self.faults.saturating_add(1);
                Err(EdgeErr::Failed)
            }
            Err(EdgeErr::Memory) => Err(EdgeErr::Memory),
        }
    }

    fn put(&mut self, id: &BlockId, bytes: &[u8]) -> Result<Option<Octets>, EdgeErr> {
        self.puts = self.puts.saturating_add(1);
        self.asked.push(*id)?;
        if self.puts == self.failing {
            self.faults = self.faults.saturating_add(1);
            return Err(EdgeErr::Failed);
        }
        match keep(&mut self.held, id, bytes) {
            Ok(kept) => Ok(kept),
            Err(EdgeErr::Failed) => {
                self.faults = self.faults.saturating_add(1);
                Err(EdgeErr::Failed)
            }
            Err(EdgeErr::Memory) => Err(EdgeErr::Memory),
        }
    }
}

/// Whether so many ids were asked for from a place on, and no two of them are one.
fn are_apart(asked: &[BlockId], from: usize, count: u64) -> bool {
    let Some(ids) = asked.get(from..) else {
        return false;
    };
    let mut alike: u64 = 0;
    for id in ids {
        for other in ids {
            if id == other {
                alike = alike.saturating_add(1);
            }
        }
    }
    ids.len() as u64 == count && alike == count
}

/// Whether an edit whose k-th put fails asks for that put and those before it, of different blocks, and the same edit then for each of its own.
fn asks_once(alloc: Global, case: &Failing<'_>, k: u64) -> Result<bool, Fail> {
    let mut store = Untold::new(alloc, case.built.wrapping_add(k))?;
    let root = root_in(alloc, case.before, &mut store)?;
    let built = store.asked.len();
    let first = edit(alloc, &root, case.edit, &PadKeys, &mut store);
    let stopped = ending(first) == "store" && are_apart(&store.asked, built, k);
    let tried = store.asked.len();
    let second = edit(alloc, &root, case.edit, &PadKeys, &mut store);
    let done = ending(second) == "root" && are_apart(&store.asked, tried, case.puts);
    Ok(stopped && done)
}

#[test]
fn each_put_fails(rt: HostRuntime) -> Result<(), Fail> {
    for case in [SPLIT, COLLAPSE] {
        for k in 0..case.puts {
            let number = k.wrapping_add(1);
            let mut store = Untold::new(rt.alloc(), case.built.wrapping_add(number))?;
            assert_eq!(rt; fails_at(rt.alloc(), &case, number, &mut store)?, true);
            assert_eq!(rt; asks_once(rt.alloc(), &case, number)?, true);
        }
    }
    Ok(())
}
