//! Putting blocks in their order.
ghost use Rattle.std.specs.Prelude.{◌≡◌};
ghost use Rattle.ild_bulk.specs.Putting.{PutsOne, PutsAll};

use ild_data::NamedBlock;
use ild_edges::{EdgeErr, Store};
use ild_node::HamtFault;

/// Puts a block under its id.
pub fn put_one<K: Store>(planned: &NamedBlock, store: &mut K) -> Result<(), HamtFault>
    ensures { PutsOne (K.moment store.old) planned.now result (K.moment store.new) }
{
    let id = planned.id();
    match store.put(&id, planned.block().as_slice()) {
        Ok(None) => Ok(()),
        Ok(Some(kept)) => Err(HamtFault::Clash {
            id,
            kept,
            new: planned.block().copy()?,
        }),
        Err(EdgeErr::Failed) => Err(HamtFault::Store),
        Err(EdgeErr::Memory) => Err(HamtFault::Memory),
    }
}

/// Puts blocks one after another, and stops at the first that isn't put.
pub fn put_all<K: Store>(blocks: &[NamedBlock], store: &mut K) -> Result<(), HamtFault>
    ensures { PutsAll (K.moment store.old) blocks.now result (K.moment store.new) }
{
    for block in blocks {
        put_one(block, store)?;
    }
    Ok(())
}
