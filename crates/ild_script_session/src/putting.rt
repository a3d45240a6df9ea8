//! Putting a block under its id.
ghost use Rattle.ild_data.specs.Bytes.{AreBytes};
ghost use Rattle.ild_script_session.specs.Puts.{PutsBlock};

use ild_data::{BlockId, block_id};
use ild_edges::{EdgeErr, Store};

/// Why a block was not put: the store failed, other bytes are kept under this id, or memory is wanting.
#[derive(Clone, Copy)]
pub enum PutFault {
    Failed,
    Clash(BlockId),
    Memory,
}

/// The items of a slice of bytes are bytes; a caller that needs the fact makes this call, which does no work.
fn are_bytes(bytes: &[u8])
    ensures { AreBytes bytes.now }
{}

/// Puts a block under its id, which it answers.
pub fn publish<K: Store>(store: &mut K, block: &[u8]) -> Result<BlockId, PutFault>
    ensures { PutsBlock (K.moment store.old) block.now result (K.moment store.new) }
{
    let id = block_id(block);
    match store.put(&id, block) {
        Ok(None) => Ok(id),
        Ok(Some(kept)) => {
            are_bytes(kept.as_slice());
            are_bytes(block);
            Err(PutFault::Clash(id))
        }
        Err(EdgeErr::Failed) => Err(PutFault::Failed),
        Err(EdgeErr::Memory) => Err(PutFault::Memory),
    }
}
