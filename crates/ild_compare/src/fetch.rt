//! The block under an id.
ghost use Rattle.ild_compare.specs.inside.Fetching.{Fetches};

use ild_cbor::BlockWhy;
use ild_data::{BlockId, Octets};
use ild_edges::{EdgeErr, Store};
use ild_open_parts::OpenFault;

/// The block under an id, by one get.
pub(crate) fn fetch<K: Store>(id: &BlockId, store: &mut K) -> Result<Octets, OpenFault>
    ensures { Fetches id.now.0 (K.moment store.old) result (K.moment store.new) }
{
    match store.get(id) {
        Ok(Some(block)) => Ok(block),
        Ok(None) => Err(OpenFault::Block {
            id: *id,
            why: BlockWhy::Missing,
        }),
        Err(EdgeErr::Failed) => Err(OpenFault::Store),
        Err(EdgeErr::Memory) => Err(OpenFault::Memory),
    }
}
