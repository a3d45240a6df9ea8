//! The nodes of a new way, put.
ghost use Rattle.std.specs.Prelude.{◌≡◌};
ghost use Rattle.ild_hamt_climb.specs.Planning.{PutsWay};

use ild_bulk::{any_long, is_long, put_all};
use ild_data::{NamedBlock, Octets};
use ild_edges::Store;
use ild_node::HamtFault;

/// The new root node of a key's way, whose other nodes are planned, each behind the one beneath it: they are put in this order.
/// Nothing is put where one of them or the root is too long.
pub fn put_way<K: Store>(
    root: Octets,
    plan: &[NamedBlock],
    store: &mut K,
) -> Result<Octets, HamtFault>
    ensures gets { (K.moment store.new).gets ≡ (K.moment store.old).gets }
    ensures puts { PutsWay root plan.now (K.moment store.old) result (K.moment store.new) }
{
    let long = is_long(&root) | any_long(plan);
    if long {
        return Err(HamtFault::Size);
    }
    put_all(plan, store)?;
    Ok(root)
}
