//! Edits of an entry of a HAMT in a block.
ghost use Rattle.std.specs.Prelude.{◌≡◌, IfSome};
ghost use Rattle.ild_data.specs.Data.{Data};
ghost use Rattle.ild_edges.specs.Store.{Moment};
ghost use Rattle.ild_hamt.specs.Edits.{CausedBy};
ghost use Rattle.ild_path_ends.specs.inside.AtKey.{CutsKey, MakesEntry, SetsKey};
ghost use Rattle.ild_node.specs.Rows.{deepest_value};
ghost use Rattle.ild_path_entry.specs.Entry.{room_in};
ghost use Rattle.ild_path_outward.specs.Level.{LeadsToHamt};
ghost use Rattle.ild_schema.specs.Value.{hamt};
ghost use Rattle.ild_view.specs.View.{IsView, slot_of, table_of};

use ild_cbor::Node;
use ild_data::{KeyHash, Octets, Path};
use ild_edges::Store;
use ild_hamt::Trail;
use ild_node::HamtFault;
use ild_path_entry::Entry;
use ild_path_outward::{hamt_at, remove_entry, set_entry};
use ild_path_room::value_slot;
use ild_view::View;
use std::alloc::Global;

// So deep may the value of an entry nest that there is room for the node around it.
const DEEPEST_VALUE: u32 = 92;

// What an item stands for as a value of the map at a view.
fn entry_of<'s>(alloc: Global, map: &View<'s>, item: &Node<'_>) -> Option<Entry<'s>>
    requires { ∥ ((t : Data) × IsView map.now (hamt t)) ∥₁ }
    ensures data { MakesEntry item.now result }
    ensures room { IfSome result (λ entry. room_in entry ≡ deepest_value) }
{
    let acc = map.schema();
    let Some(slot) = value_slot(acc, map) else {
        unreachable!();
    };
    match Entry::of(alloc, acc, slot, item, DEEPEST_VALUE) {
        Ok(entry) => Some(entry),
        Err(_) => None,
    }
}

/// The block with the entry at a trail's key of the HAMT at a path set to what an item stands for.
pub(crate) fn set_key<'a, K: Store, H: KeyHash>(
    alloc: Global,
    level: View<'a>,
    front: &'a Path,
    trail: Trail,
    item: &Node<'_>,
    keys: &H,
    store: &mut K,
) -> Result<Octets, HamtFault>
    requires { ∥ LeadsToHamt level front.now ∥₁ }
    ensures gets { (K.moment store.new).gets ≡ (K.moment store.old).gets }
    ensures caused { CausedBy (K.moment store.old) result (K.moment store.new) }
    ensures sets { SetsKey H.hash_of (table_of level.entry) (slot_of level.entry) level.entry front.now trail item.now (K.moment store.old) result (K.moment store.new) }
{
    let map = hamt_at(&level, front);
    let Some(value) = entry_of(alloc, &map, item) else {
        return Err(HamtFault::Memory);
    };
    set_entry(alloc, &level, front, trail, &value.node(), keys, store)
}

/// The block without that entry.
pub(crate) fn cut_key<'a, K: Store, H: KeyHash>(
    alloc: Global,
    level: View<'a>,
    front: &'a Path,
    trail: Trail,
    keys: &H,
    store: &mut K,
) -> Result<Octets, HamtFault>
    requires { ∥ LeadsToHamt level front.now ∥₁ }
    ensures gets { (K.moment store.new).gets ≡ (K.moment store.old).gets }
    ensures caused { CausedBy (K.moment store.old) result (K.moment store.new) }
    ensures cuts { CutsKey H.hash_of (table_of level.entry) (slot_of level.entry) level.entry front.now trail (K.moment store.old) result (K.moment store.new) }
{
    remove_entry(alloc, &level, front, trail, keys, store)
}
