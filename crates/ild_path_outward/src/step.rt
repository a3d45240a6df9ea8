//! One level outward.
ghost use Rattle.ild_hamt.specs.Edits.{CausedBy};
ghost use Rattle.std.specs.Prelude.{◌≡◌, ◌≤◌, []};
ghost use Rattle.ild_cbor.specs.Nodes.{HasData};
ghost use Rattle.ild_data.specs.Spell.{spell};
ghost use Rattle.ild_edges.specs.Store.{Moment};
ghost use Rattle.ild_path_entry.specs.Entry.{room_in};
ghost use Rattle.ild_path_hops.specs.Links.{RootBehind};
ghost use Rattle.ild_path_outward.specs.inside.Steps.{SetsBelow, SetsIn};
ghost use Rattle.ild_node.specs.Rows.{NestsIn, deepest_value};
ghost use Rattle.ild_view.specs.View.{slot_of, table_of};

use ild_cbor::{Node, check};
use ild_data::{KeyHash, Octets, Path};
use ild_edges::Store;
use ild_hamt::Trail;
use ild_node::HamtFault;
use ild_path_entry::Entry;
use ild_path_hop::set_entry;
use ild_path_hops::Hop;
use ild_view::View;
use std::alloc::Global;

/// The block of the last of these hops, or of the root where there is none, in which the value at a trail's key of the HAMT at a path is
/// set to what an item stands for. The new nodes of the HAMT are put, each behind those beneath it.
pub(crate) fn set_last<'a, K: Store, H: KeyHash>(
    alloc: Global,
    root: View<'a>,
    hops: &'a [Hop<'_>],
    front: &'a Path,
    trail: Trail,
    item: &Node<'_>,
    keys: &H,
    store: &mut K,
) -> Result<Octets, HamtFault>
    requires leads { ∥ RootBehind root hops.now front.now ∥₁ }
    requires nests { NestsIn deepest_value item.now }
    ensures gets { (K.moment store.new).gets ≡ (K.moment store.old).gets }
    ensures caused { CausedBy (K.moment store.old) result (K.moment store.new) }
    ensures root { hops.now ≡ [] → SetsIn H.hash_of (table_of root.entry) (slot_of root.entry) root.entry front.now trail (λ d. HasData item.now d) (K.moment store.old) result (K.moment store.new) }
    ensures below { SetsBelow H.hash_of hops.now front.now trail (λ d. HasData item.now d) (K.moment store.old) result (K.moment store.new) }
{
    match hops.last() {
        Some(hop) => {
            let level = hop.entry.view();
            set_entry(alloc, &level, front, trail, item, keys, store)
        }
        None => set_entry(alloc, &root, front, trail, item, keys, store),
    }
}

/// The same with a new block in place of an item, that of another value of an entry's slot in its room.
/// Bytes that nest deeper than a block may, and a value that is none of the slot in the room, are told as want of memory: a part that keeps
/// to its place's room makes neither of a value that the store holds.
pub(crate) fn set_in<'a, K: Store, H: KeyHash>(
    alloc: Global,
    root: View<'a>,
    hops: &'a [Hop<'_>],
    front: &'a Path,
    trail: Trail,
    entry: &Entry<'_>,
    new: &Octets,
    keys: &H,
    store: &mut K,
) -> Result<Octets, HamtFault>
    requires leads { ∥ RootBehind root hops.now front.now ∥₁ }
    requires room { room_in entry.now ≤ deepest_value }
    ensures gets { (K.moment store.new).gets ≡ (K.moment store.old).gets }
    ensures caused { CausedBy (K.moment store.old) result (K.moment store.new) }
    ensures root { hops.now ≡ [] → SetsIn H.hash_of (table_of root.entry) (slot_of root.entry) root.entry front.now trail (λ d. new.now ≡ spell d) (K.moment store.old) result (K.moment store.new) }
    ensures below { SetsBelow H.hash_of hops.now front.now trail (λ d. new.now ≡ spell d) (K.moment store.old) result (K.moment store.new) }
{
    let item = match check(new.as_slice()) {
        Ok(item) => item,
        Err(_) => return Err(HamtFault::Memory),
    };
    let value = match entry.renewed(alloc, &item) {
        Ok(value) => value,
        Err(_) => return Err(HamtFault::Memory),
    };
    set_last(alloc, root, hops, front, trail, &value.node(), keys, store)
}
