//! What is told of a part, as a reply.
ghost use Rattle.std.specs.Prelude.{◌≡◌, ◌⊎◌};
ghost use Rattle.ild_data.specs.Data.{Data};
ghost use Rattle.ild_data.specs.Limits.{deepest};
ghost use Rattle.ild_data.specs.Seen.{data_of};
ghost use Rattle.ild_data.specs.Spell.{id_of};
ghost use Rattle.ild_script_meaning.specs.Lines.{printed};
ghost use Rattle.ild_open.specs.Blocks.{bytes_in};
ghost use Rattle.ild_open.specs.Loaded.{IsShallow};
ghost use Rattle.ild_run_reads.specs.Replies.{IsBlamed, IsOfRead, RepliesAs, refusal_of};
ghost use Rattle.ild_schema.specs.Value.{Value};
ghost use Rattle.ild_typed.specs.Fits.{Front};
ghost use Rattle.ild_view.specs.View.{IsView, slot_of, table_of};

use ild_data::{KeyHash, Path, Tree};
use ild_edges::Store;
use ild_json::{PrintErr, print};
use ild_open::BlockAt;
use ild_run_follow::{ReadFault, Tell, tell};
use ild_script::{No, Reply};
use ild_view::View;
use std::alloc::Global;

// Data as a reply.
fn reply_of(alloc: Global, tree: &Tree) -> Reply
    ensures { (result ≡ printed (data_of tree.now)) ⊎ (result ≡ Reply.No No.Memory) }
{
    match print(alloc, tree) {
        Ok(json) => Reply::Ok(json),
        Err(PrintErr::Reserved) => Reply::No(No::Reserved),
        Err(PrintErr::Memory) => Reply::No(No::Memory),
    }
}

// A fault as a refusal.
fn refusal(fault: &ReadFault) -> No
    ensures { result ≡ refusal_of fault.now }
{
    match fault {
        ReadFault::Path => No::Path,
        ReadFault::Block { .. } => No::Block,
        ReadFault::Store => No::Store,
        ReadFault::Memory => No::Memory,
    }
}

/// The reply to a read of the value at a view, whose data stand in the block that is handed in: the reply that is due on the plain value,
/// or a refusal for a cause that is there. Over every store a block is blamed only where one is broken, of those that hang on the view's data.
pub fn read<K: Store, H: KeyHash>(
    alloc: Global,
    view: &View<'_>,
    at: BlockAt<'_>,
    path: &Path,
    what: Tell,
    keys: &H,
    store: &mut K,
) -> Reply
    requires shallow { ∥ IsShallow 96 view.now ∥₁ }
    ensures replies { RepliesAs H.hash_of view.now path.now what (K.moment store.old) result (K.moment store.new) }
    ensures own { IsOfRead result }
    ensures blamed { result ≡ Reply.No No.Block → (f : Value) (t : Data) → IsView view.now f → Front (table_of view.now) deepest (slot_of view.now) f t
        → IsBlamed H.hash_of (table_of view.now) (K.moment store.old).blocks (K.moment store.old).lacks (K.moment store.new).lacks (id_of (bytes_in at.entry)) (slot_of view.now) t }
{
    match tell(alloc, view, at, path, what, keys, store) {
        Ok(tree) => reply_of(alloc, &tree),
        Err(fault) => Reply::No(refusal(&fault)),
    }
}
