//! A value is created in a store.
ghost use Rattle.std.specs.Prelude.{◌≡◌, ◌<◌, length};
ghost use Rattle.ild_run_create.specs.Creates.{Creates};
ghost use Rattle.ild_run_create.specs.inside.Steps.{put_fault};

use crate::CreateFault;
use crate::block::{block_of, given};
use ild_data::{BlockId, KeyHash};
use ild_edges::Store;
use ild_schema::{Accepted, TypeNo};
use ild_script_session::{PutFault, publish};
use std::alloc::Global;

fn put_fault(fault: PutFault) -> CreateFault
    ensures { result ≡ put_fault fault }
{
    match fault {
        PutFault::Failed => CreateFault::Store,
        PutFault::Clash(id) => CreateFault::Clash(id),
        PutFault::Memory => CreateFault::Memory,
    }
}

/// Creates the value of a type that bytes mean as DAG-JSON, and answers the id of its root block: the nodes of HAMTs in the value are
/// put, and then the root. Or else the bytes make no such value, for the first of seven causes, and nothing is put; the store fails;
/// or a block of the value collides with one that is kept.
pub fn create<K: Store, H: KeyHash>(
    alloc: Global,
    acc: &Accepted,
    ty: TypeNo,
    bytes: &[u8],
    keys: &H,
    store: &mut K,
) -> Result<BlockId, CreateFault>
    requires within { ty.0 < length acc.now }
    ensures { Creates H.hash_of acc.now ty bytes.now (K.moment store.old) result (K.moment store.new) }
{
    acc.recall();
    let val = match given(alloc, acc, ty, bytes) {
        Ok(val) => val,
        Err(fault) => return Err(fault),
    };
    let block = match block_of(alloc, acc, ty, &val, keys, store) {
        Ok(block) => block,
        Err(fault) => return Err(fault),
    };
    match publish(store, block.as_slice()) {
        Ok(id) => Ok(id),
        Err(fault) => Err(put_fault(fault)),
    }
}
