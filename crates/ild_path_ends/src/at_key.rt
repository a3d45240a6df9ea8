//! An edit at a key of a HAMT in the innermost block.
ghost use Rattle.std.specs.Prelude.{◌≡◌, IfOk};
ghost use Rattle.ild_edges.specs.Store.{Moment};
ghost use Rattle.ild_path_ends.specs.Roots.{HasBlock};
ghost use Rattle.ild_view.specs.View.{slot_of, table_of};
ghost use Rattle.ild_hamt.specs.Edits.{CausedBy};
ghost use Rattle.ild_path_hops.specs.Links.{AreLinked, RootBehind};
ghost use Rattle.ild_path_ends.specs.inside.AtKey.{ChangesAtKey};
ghost use Rattle.ild_path_ends.specs.Ends.{EditsAtKey};

use crate::entry::{cut_key, set_key};
use crate::finish::finish;
use crate::innermost::innermost;
use ild_data::{KeyHash, NamedBlock, Octets, Path};
use ild_edges::Store;
use ild_hamt::Trail;
use ild_node::HamtFault;
use ild_path_block::PartEdit;
use ild_path_hops::Hop;
use ild_view::View;
use std::alloc::Global;

// The block of the innermost value with the edit, whose new nodes are put.
fn changed_at_key<K: Store, H: KeyHash>(
    alloc: Global,
    root: &View<'_>,
    hops: &[Hop<'_>],
    front: &Path,
    trail: Trail,
    edit: &PartEdit<'_>,
    keys: &H,
    store: &mut K,
) -> Result<Octets, HamtFault>
    requires { ∥ RootBehind root.now hops.now front.now ∥₁ }
    ensures gets { (K.moment store.new).gets ≡ (K.moment store.old).gets }
    ensures caused { CausedBy (K.moment store.old) result (K.moment store.new) }
    ensures changes { ChangesAtKey H.hash_of root.now hops.now front.now trail edit.now (K.moment store.old) result (K.moment store.new) }
{
    let view = innermost(*root, hops);
    match edit {
        PartEdit::Set(item) => set_key(alloc, view, front, trail, item, keys, store),
        PartEdit::Insert(item) => set_key(alloc, view, front, trail, item, keys, store),
        PartEdit::Delete => cut_key(alloc, view, front, trail, keys, store),
    }
}

/// The block of the whole with an edit of the entry at a trail's key of a HAMT in the innermost block.
pub fn edit_at_key<K: Store, H: KeyHash>(
    alloc: Global,
    root: &View<'_>,
    hops: Vec<Hop<'_>>,
    front: &Path,
    trail: Trail,
    edit: &PartEdit<'_>,
    keys: &H,
    store: &mut K,
) -> Result<NamedBlock, HamtFault>
    requires linked { ∥ AreLinked root.now hops.items ∥₁ }
    requires leads { ∥ RootBehind root.now hops.items front.now ∥₁ }
    ensures gets { (K.moment store.new).gets ≡ (K.moment store.old).gets }
    ensures caused { CausedBy (K.moment store.old) result (K.moment store.new) }
    ensures root { IfOk result (λ b. ∥ HasBlock (table_of root.now) (slot_of root.now) b ∥₁) }
    ensures edits { EditsAtKey H.hash_of root.now hops.entry.items front.now trail edit.now (K.moment store.old) result (K.moment store.new) }
{
    let block = changed_at_key(
        alloc,
        root,
        hops.as_slice(),
        front,
        trail,
        edit,
        keys,
        store,
    )?;
    finish(alloc, root, hops, block, keys, store)
}
