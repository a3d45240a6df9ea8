//! An edit at the end of a path.
ghost use Rattle.std.specs.Prelude.{◌≡◌, IfOk, true};
ghost use Rattle.ild_edges.specs.Store.{Moment};
ghost use Rattle.ild_hamt.specs.Edits.{CausedBy};
ghost use Rattle.ild_path.specs.inside.Pieces.{EditsParts, takes};
ghost use Rattle.ild_path_ends.specs.Roots.{HasBlock};
ghost use Rattle.ild_path_place.specs.Links.{IsLinked};
ghost use Rattle.ild_view.specs.View.{slot_of, table_of};

use ild_data::{KeyHash, NamedBlock, Path};
use ild_edges::Store;
use ild_node::HamtFault;
use ild_path_block::PartEdit;
use ild_path_ends::{edit_at_key, edit_in_block};
use ild_path_place::{End, Parts};
use std::alloc::Global;

/// The block of the whole with an edit at a place, which sets the part where that is the whole.
pub(crate) fn edit_parts<K: Store, H: KeyHash>(
    alloc: Global,
    parts: Parts<'_>,
    edit: &PartEdit<'_>,
    keys: &H,
    store: &mut K,
) -> Result<NamedBlock, HamtFault>
    requires ends { takes parts.end edit.now ≡ true }
    requires linked { ∥ IsLinked parts.root parts.hops.items parts.end ∥₁ }
    ensures gets { (K.moment store.new).gets ≡ (K.moment store.old).gets }
    ensures caused { CausedBy (K.moment store.old) result (K.moment store.new) }
    ensures root { IfOk result (λ b. ∥ HasBlock (table_of parts.entry.root) (slot_of parts.entry.root) b ∥₁) }
    ensures edits { EditsParts H.hash_of parts.entry edit.now (K.moment store.old) result (K.moment store.new) }
{
    let Parts {
        root,
        verb: _,
        hops,
        end,
    } = parts;
    match end {
        End::Whole => edit_in_block(alloc, &root, hops, &Path::new(alloc), edit, keys, store),
        End::InBlock(path) => edit_in_block(alloc, &root, hops, &path, edit, keys, store),
        End::AtKey(front, trail, _) => {
            edit_at_key(alloc, &root, hops, &front, trail, edit, keys, store)
        }
    }
}
