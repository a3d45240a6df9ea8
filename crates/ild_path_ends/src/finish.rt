//! From the innermost block to that of the whole.
ghost use Rattle.std.specs.Prelude.{◌≡◌, IfOk};
ghost use Rattle.ild_edges.specs.Store.{Moment};
ghost use Rattle.ild_path_ends.specs.Roots.{HasBlock};
ghost use Rattle.ild_view.specs.View.{slot_of, table_of};
ghost use Rattle.ild_hamt.specs.Edits.{CausedBy};
ghost use Rattle.ild_path_hops.specs.Links.{AreLinked};
ghost use Rattle.ild_path_ends.specs.inside.Finish.{FinishesWhole};

use crate::root::is_block_of;
use ild_bulk::put_one;
use ild_data::{KeyHash, NamedBlock, Octets};
use ild_edges::Store;
use ild_node::HamtFault;
use ild_path_hops::Hop;
use ild_path_outward::outward;
use ild_view::View;
use std::alloc::Global;

/// The root's block, where the innermost value becomes that of a new block: the new nodes of the HAMTs on the way are put from the last
/// hop outward, and behind them all the root's block.
pub(crate) fn finish<K: Store, H: KeyHash>(
    alloc: Global,
    root: &View<'_>,
    hops: Vec<Hop<'_>>,
    new: Octets,
    keys: &H,
    store: &mut K,
) -> Result<NamedBlock, HamtFault>
    requires { ∥ AreLinked root.now hops.items ∥₁ }
    ensures gets { (K.moment store.new).gets ≡ (K.moment store.old).gets }
    ensures caused { CausedBy (K.moment store.old) result (K.moment store.new) }
    ensures root { IfOk result (λ b. ∥ HasBlock (table_of root.now) (slot_of root.now) b ∥₁) }
    ensures finishes { FinishesWhole H.hash_of root.now hops.entry.items new (K.moment store.old) result (K.moment store.new) }
{
    let block = outward(alloc, root, hops, new, keys, store)?;
    // The block of a value that the store holds is always one.
    if !is_block_of(alloc, root, &block) {
        return Err(HamtFault::Memory);
    }
    let named = NamedBlock::of(block);
    put_one(&named, store)?;
    Ok(named)
}
