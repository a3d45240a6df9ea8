//! Getting the block of a node.
ghost use Rattle.ild_open_nodes.specs.Reading.{GetsBlock};

use ild_cbor::BlockWhy;
use ild_data::{BlockId, Octets};
use ild_edges::{EdgeErr, Store};
use ild_open_parts::OpenFault;

/// The block under an id, by one get of the store, or why it isn't to be had.
pub fn block_of<K: Store>(id: BlockId, store: &mut K) -> Result<Octets, OpenFault>
    ensures { GetsBlock (K.moment store.old) id.0 result (K.moment store.new) }
{
    match store.get(&id) {
        Ok(Some(block)) => Ok(block),
        Ok(None) => Err(OpenFault::Block {
            id,
            why: BlockWhy::Missing,
        }),
        Err(EdgeErr::Failed) => Err(OpenFault::Store),
        Err(EdgeErr::Memory) => Err(OpenFault::Memory),
    }
}
