//! A value under a bare root is given one that names its schema.
ghost use Rattle.std.specs.Prelude.{◌≡◌, ◌<◌, length};
ghost use Rattle.ild_data.specs.Bytes.{AreBytes};
ghost use Rattle.ild_run_named.specs.Migrates.{Migrates};
ghost use Rattle.ild_run_named.specs.inside.Moves.{TellsBytes, migrate_fault, name_fault};

use ild_cbor::BlockWhy;
use ild_data::{BlockId, KeyHash};
use ild_edges::Store;
use ild_named_root::{NameFault, name_root};
use ild_open::{OpenFault, open_root};
use ild_schema::{Accepted, TypeNo};
use std::alloc::Global;

/// Why a value isn't given a root that names its schema.
#[derive(Clone, Copy, Debug, PartialEq, Eq)]
pub enum MigrateFault {
    /// It nests more than 95 levels.
    Depth,
    /// The root's block or the schema's would be longer than 4,194,304 bytes.
    Size,
    /// No value stands under the bare root: this block isn't held, or isn't what has to stand there.
    Block { id: BlockId, why: BlockWhy },
    /// The store failed.
    Store,
    /// Other bytes are kept under the id of a block that was to be put.
    Clash(BlockId),
    /// Memory is wanting.
    Memory,
}

fn migrate_fault(fault: OpenFault) -> MigrateFault
    ensures { result ≡ migrate_fault fault }
{
    match fault {
        OpenFault::Block { id, why } => MigrateFault::Block { id, why },
        OpenFault::Store => MigrateFault::Store,
        OpenFault::Memory => MigrateFault::Memory,
    }
}

// The items of a slice of bytes are bytes; a caller that needs the fact makes this call, which does no work.
fn are_bytes(bytes: &[u8])
    ensures { AreBytes bytes.now }
{}

fn name_fault(fault: NameFault) -> MigrateFault
    ensures same { result ≡ name_fault fault }
    ensures bytes { TellsBytes fault }
{
    match fault {
        NameFault::Depth => MigrateFault::Depth,
        NameFault::Size => MigrateFault::Size,
        NameFault::Store => MigrateFault::Store,
        NameFault::Clash { id, kept, new } => {
            are_bytes(kept.as_slice());
            are_bytes(new.as_slice());
            MigrateFault::Clash(id)
        }
        NameFault::Block { id, why } => MigrateFault::Block { id, why },
        NameFault::Memory => MigrateFault::Memory,
    }
}

/// Gives the value of a type that stands under a bare root one that names the type so and the schema by this text, and answers its id. The
/// value is opened first. Then the block of the text is put, and the new root. `Depth` comes exactly where the value nests more than 95
/// levels, and else `Size` where one of the two blocks is longer than a block may be; or no value stands under the bare root, and a block
/// is told that isn't held or isn't what has to stand there; or the store fails, or one of the two blocks collides with one that is kept.
pub fn migrate<K: Store, H: KeyHash>(
    alloc: Global,
    acc: &Accepted,
    ty: TypeNo,
    name: &str,
    source: &str,
    root: &BlockId,
    keys: &H,
    store: &mut K,
) -> Result<BlockId, MigrateFault>
    requires { ty.0 < length acc.now }
    ensures { Migrates H.hash_of acc.now ty root.now.0 name.now source.now (K.moment store.old) result (K.moment store.new) }
{
    acc.recall();
    let doc = match open_root(alloc, acc, ty, root, keys, store) {
        Ok(doc) => doc,
        Err(fault) => return Err(migrate_fault(fault)),
    };
    match name_root(alloc, &doc, name, source, keys, store) {
        Ok(id) => Ok(id),
        Err(fault) => Err(name_fault(fault)),
    }
}
