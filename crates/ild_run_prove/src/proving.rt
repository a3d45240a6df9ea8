//! A value is opened, and what stands at a path in it is proved.
ghost use Rattle.std.specs.Prelude.{◌≡◌, ◌<◌, length};
ghost use Rattle.ild_node_slots.specs.Faults.{IsReadFault};
ghost use Rattle.ild_run_prove.specs.Proved.{ProvesPath};
ghost use Rattle.ild_run_prove.specs.inside.Faults.{made_fault, open_fault};

use crate::ProveFault;
use crate::printing::json_of;
use ild_data::{BlockId, KeyHash, Path, Txt};
use ild_edges::Store;
use ild_inclusion_prove::prove as prove_in;
use ild_node::HamtFault;
use ild_open::{OpenFault, open_root};
use ild_schema::{Accepted, TypeNo};
use std::alloc::Global;

// The fault of a root that isn't opened.
fn open_fault(fault: &OpenFault) -> ProveFault
    ensures { result ≡ open_fault fault.now }
{
    match fault {
        OpenFault::Block { id, why } => ProveFault::Block { id: *id, why: *why },
        OpenFault::Store => ProveFault::Store,
        OpenFault::Memory => ProveFault::Memory,
    }
}

// The fault of a proof that isn't made.
fn made_fault(fault: &HamtFault) -> ProveFault
    requires { IsReadFault fault.now }
    ensures { result ≡ made_fault fault.now }
{
    match fault {
        HamtFault::Block { id, why } => ProveFault::Block { id: *id, why: *why },
        HamtFault::Store => ProveFault::Store,
        HamtFault::Memory => ProveFault::Memory,
        HamtFault::Exhausted | HamtFault::Clash { .. } | HamtFault::Size | HamtFault::NoKey =>
            unreachable!(),
    }
}

/// The JSON of a proof of what stands at a path in the value of a type under a block id: the list of the root's block and of the nodes of HAMTs on the
/// way, each as bytes, as `ild_run_verify::verify` takes it. Or else no such value stands there, and a block is told that isn't held or isn't what has
/// to stand there; or the store fails. Nothing is put.
pub fn prove<K: Store, H: KeyHash>(
    alloc: Global,
    acc: &Accepted,
    ty: TypeNo,
    id: &BlockId,
    path: &Path,
    keys: &H,
    store: &mut K,
) -> Result<Txt, ProveFault>
    requires { ty.0 < length acc.now }
    ensures { ProvesPath H.hash_of acc.now ty id.now.0 path.now (K.moment store.old) result (K.moment store.new) }
{
    let doc = match open_root(alloc, acc, ty, id, keys, store) {
        Ok(doc) => doc,
        Err(fault) => return Err(open_fault(&fault)),
    };
    match prove_in(alloc, &doc, path, keys, store) {
        Ok(proof) => match json_of(alloc, &proof) {
            Ok(json) => Ok(json),
            Err(_) => Err(ProveFault::Memory),
        },
        Err(fault) => Err(made_fault(&fault)),
    }
}
