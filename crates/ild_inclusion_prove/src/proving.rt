//! Proofs made.
ghost use Rattle.std.specs.Prelude.{◌≡◌, ℕ, IfOk, List, Some};
ghost use Rattle.ild_data.specs.Spell.{id_of};
ghost use Rattle.ild_edges.specs.Gained.{OnlyReads};
ghost use Rattle.ild_edges.specs.Store.{block_at};
ghost use Rattle.ild_path_enter.specs.Enters.{FailsOnly};
ghost use Rattle.ild_inclusion_prove.specs.Proves.{Proves, ProvesHeld};
ghost use Rattle.ild_path_found.specs.Sites.{RefusesBroken};
ghost use Rattle.ild_schema.specs.Slots.{plainly};
ghost use Rattle.ild_schema.specs.Value.{Value};
ghost use Rattle.ild_typed.specs.Stands.{Stands, bare};
ghost use Rattle.ild_view_doc.specs.Block.{IsRootBlock};
ghost use Rattle.ild_view_doc.specs.Docs.{block_in, table_in, type_in};

use crate::adding::begun;
use crate::walking::follow;
use ild_data::{KeyHash, Path};
use ild_edges::Store;
use ild_inclusion::Proof;
use ild_inclusion_held::proofs_hold;
use ild_node::HamtFault;
use ild_view_doc::Doc;
use std::alloc::Global;

/// How many levels the value under a root may nest.
const ROOM: u32 = 96;

/// A proof of what a path leads to in a root block's value: its block, and the nodes on the way of each key of a HAMT that is a segment of the
/// path, in order. It is made by gets alone, one for each of these nodes, and `ild_inclusion::verify` takes it, whatever the store
/// is. On a store that holds the value it proves what that answers, and no block is refused; on any other only one that is broken, of those that
/// hang on the root's. A fault of the store comes only where it failed, and no other but want of memory.
pub fn prove<K: Store, H: KeyHash>(
    alloc: Global,
    doc: &Doc<'_>,
    path: &Path,
    keys: &H,
    store: &mut K,
) -> Result<Proof, HamtFault>
    ensures proves { IfOk result (λ proof. ∥ Proves H.hash_of (table_in doc.now) (type_in doc.now) (block_in doc.now) path.now (K.moment store.old) proof (K.moment store.new) ∥₁) }
    ensures only { OnlyReads (K.moment store.old) (K.moment store.new) }
    ensures failed { FailsOnly (K.moment store.old) result (K.moment store.new) }
    ensures refused { (f : Value) (root : IsRootBlock (table_in doc.now) (type_in doc.now) (block_in doc.now) f)
        → RefusesBroken H.hash_of (table_in doc.now) (id_of (block_in doc.now)) 96 (plainly (type_in doc.now)) root.tree (K.moment store.old) result (K.moment store.new) }
    ensures stands { (was : List (List ℕ)) (v : Value) → (K.moment store.old).blocks ≡ Some was → block_at was (id_of (block_in doc.now)) ≡ Some (block_in doc.now)
        → Stands bare (block_at was) H.hash_of (table_in doc.now) (type_in doc.now) (id_of (block_in doc.now)) v
        → ProvesHeld H.hash_of (table_in doc.now) (type_in doc.now) (id_of (block_in doc.now)) v path.now (K.moment store.old) result (K.moment store.new) }
{
    // They do no work: their clauses say what acceptance says of the table, and what proofs say of values that are held.
    doc.schema().recall();
    proofs_hold();
    let mut proof = begun(alloc, doc)?;
    match follow(
        alloc,
        doc.view(),
        doc.block(),
        path.as_slice(),
        ROOM,
        &mut proof,
        keys,
        store,
    ) {
        Ok(_) => Ok(proof),
        Err(fault) => Err(fault),
    }
}
