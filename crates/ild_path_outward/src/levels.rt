//! All levels outward.
ghost use Rattle.ild_hamt.specs.Edits.{CausedBy};
ghost use Rattle.std.specs.Prelude.{◌≡◌};
ghost use Rattle.ild_edges.specs.Store.{Moment};
ghost use Rattle.ild_path_hops.specs.Links.{AreLinked};
ghost use Rattle.ild_path_outward.specs.Outward.{CarriesOutward};

use crate::step::set_in;
use ild_data::{KeyHash, Octets};
use ild_edges::Store;
use ild_node::HamtFault;
use ild_path_hops::Hop;
use ild_view::View;
use std::alloc::Global;

/// The root's block, where the value in the last hop's entry, or the root's where there is no hop, becomes that of a new block. From the
/// last hop outward the entry of each is set, and the new nodes of its HAMT are put, each behind those beneath it.
pub fn outward<K: Store, H: KeyHash>(
    alloc: Global,
    root: &View<'_>,
    hops: Vec<Hop<'_>>,
    new: Octets,
    keys: &H,
    store: &mut K,
) -> Result<Octets, HamtFault>
    requires { ∥ AreLinked root.now hops.items ∥₁ }
    ensures gets { (K.moment store.new).gets ≡ (K.moment store.old).gets }
    ensures caused { CausedBy (K.moment store.old) result (K.moment store.new) }
    ensures carries { CarriesOutward H.hash_of root.now hops.entry.items new (K.moment store.old) result (K.moment store.new) }
{
    let mut hops = hops;
    let mut block = new;
    while let Some(hop) = hops.pop() {
        let Hop {
            front,
            trail,
            entry,
        } = hop;
        block = set_in(
            alloc, *root, &hops, &front, trail, &entry, &block, keys, store,
        )?;
    }
    Ok(block)
}
