//! One entry put, or gone.
ghost use Rattle.ild_hamt.specs.Edits.{CausedBy};
ghost use Rattle.std.specs.Prelude.{◌≡◌, ℕ, List, Some};
ghost use Rattle.ild_data.specs.Data.{Data};
ghost use Rattle.ild_edges.specs.Store.{Moment};
ghost use Rattle.ild_node.specs.Rows.{NestsIn, deepest_value};
ghost use Rattle.ild_cbor.specs.Nodes.{HasData};
ghost use Rattle.ild_path_reroot.specs.Reroots.{Cuts, IsCut, IsHamtHeld, IsHamtView, IsPut, Puts};
ghost use Rattle.ild_schema.specs.Value.{Pairs, Value, hamt};
ghost use Rattle.ild_schema.specs.declared.number.Slot.{Slot as Place};
ghost use Rattle.ild_schema.specs.declared.row.Row.{Row};
ghost use Rattle.ild_view.specs.View.{IsView};

use crate::root::root_around;
use ild_cbor::Node;
use ild_data::{KeyHash, Octets};
use ild_edges::Store;
use ild_hamt::Trail;
use ild_node::HamtFault;
use ild_view::View;
use std::alloc::Global;

/// The root map of the HAMT at a view, with what an item stands for as the value at a trail's key. The new nodes beneath the root
/// node are put, each behind those beneath it. The trail is that of this root, and the value leaves room for the node around it.
pub fn put_entry<K: Store, H: KeyHash>(
    alloc: Global,
    view: &View<'_>,
    trail: Trail,
    item: &Node<'_>,
    keys: &H,
    store: &mut K,
) -> Result<Octets, HamtFault>
    requires hamt { ∥ IsHamtView view.now ∥₁ }
    requires nests { NestsIn deepest_value item.now }
    ensures gets { (K.moment store.new).gets ≡ (K.moment store.old).gets }
    ensures caused { CausedBy (K.moment store.old) result (K.moment store.new) }
    ensures puts { (rows : List Row) (was : List (List ℕ)) (s elem : Place) (t d x : Data) (ps : Pairs) (es : List (List ℕ × Data)) (k : List ℕ) (room : ℕ) (w : Value) → IsView view.now (hamt t)
        → (K.moment store.old).blocks ≡ Some was → (at : IsHamtHeld H.hash_of rows was s elem t ps es k trail) → IsPut H.hash_of rows was s elem room ps k w d x → HasData item.now d
        → Puts H.hash_of at.hamt.3 rows s room ps es k w d x (K.moment store.old) result (K.moment store.new) }
{
    let root = match view.hamt() {
        Some(root) => root,
        None => unreachable!(),
    };
    let shape = root.shape();
    let node = trail.set(alloc, root, item, keys, store)?;
    root_around(alloc, shape, &node)
}

/// The same without the entry at the trail's key. Where the key isn't there, nothing is done.
pub fn cut_entry<K: Store, H: KeyHash>(
    alloc: Global,
    view: &View<'_>,
    trail: Trail,
    keys: &H,
    store: &mut K,
) -> Result<Octets, HamtFault>
    requires { ∥ IsHamtView view.now ∥₁ }
    ensures gets { (K.moment store.new).gets ≡ (K.moment store.old).gets }
    ensures caused { CausedBy (K.moment store.old) result (K.moment store.new) }
    ensures cuts { (rows : List Row) (was : List (List ℕ)) (s elem : Place) (t x : Data) (ps : Pairs) (es : List (List ℕ × Data)) (k : List ℕ) (room : ℕ) → IsView view.now (hamt t)
        → (K.moment store.old).blocks ≡ Some was → (at : IsHamtHeld H.hash_of rows was s elem t ps es k trail) → IsCut H.hash_of rows s room ps k x
        → Cuts H.hash_of at.hamt.3 rows s room ps es k x (K.moment store.old) result (K.moment store.new) }
{
    let root = match view.hamt() {
        Some(root) => root,
        None => unreachable!(),
    };
    let shape = root.shape();
    let node = trail.remove(alloc, root, keys, store)?;
    root_around(alloc, shape, &node)
}
