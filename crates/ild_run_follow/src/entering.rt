//! A HAMT entered at a key.
ghost use Rattle.std.specs.Prelude.{List};
ghost use Rattle.ild_cbor.specs.Nodes.{HasData};
ghost use Rattle.ild_data.specs.Data.{Data};
ghost use Rattle.ild_data.specs.Trie.{TrieSlot};
ghost use Rattle.ild_schema.specs.Slots.{form_of};
ghost use Rattle.ild_node_slots.specs.Views.{HasSlots};
ghost use Rattle.ild_open.specs.Blocks.{bytes_in};
ghost use Rattle.ild_data.specs.declared.hamt_shape.HamtShape.{HamtShape};
ghost use Rattle.ild_schema.specs.Value.{hamt as root_of};
ghost use Rattle.ild_view.specs.View.{IsView, slot_of, table_of};
ghost use Rattle.ild_run_follow.specs.inside.Enters.{ChecksEntry, EntersTrie, RefusesEntry, WalksTrie};

use crate::fault::{ReadFault, of_hamt};
use ild_cbor::{BlockWhy, Node};
use ild_data::KeyHash;
use ild_edges::Store;
use ild_hamt::{Trail, descend};
use ild_node_slots::NodeView;
use ild_open::BlockAt;
use ild_path_room::value_slot;
use ild_typed::refused_have_no_front;
use ild_view::{View, ViewErr};
use std::alloc::Global;

/// The nodes on a key's way beneath the root of a HAMT.
pub(crate) fn trail_of<K: Store, H: KeyHash>(
    alloc: Global,
    root: NodeView<'_>,
    key: &str,
    keys: &H,
    store: &mut K,
) -> Result<Trail, ReadFault>
    ensures enters { (p : HamtShape) (slots : List TrieSlot) → HasSlots p root.entry slots → EntersTrie H.hash_of p key.now slots (K.moment store.old) result (K.moment store.new) }
    ensures walks { (p : HamtShape) (slots : List TrieSlot) → HasSlots p root.entry slots → WalksTrie H.hash_of p key.now slots (K.moment store.old) result (K.moment store.new) }
{
    match descend(alloc, root, key, keys, store) {
        Ok(trail) => Ok(trail),
        Err(fault) => Err(of_hamt(&fault)),
    }
}

/// The view of the value of an entry in a HAMT, which may nest so many levels, and is checked against the slot of the HAMT's values. Where
/// it is none of them, the block in which it stands is refused: the one that is handed in.
pub(crate) fn entry_view<'b>(
    alloc: Global,
    hamt: &View<'b>,
    node: Node<'b>,
    at: BlockAt<'_>,
    room: u32,
) -> Result<View<'b>, ReadFault>
    requires { ∥ ((t : Data) × IsView hamt.now (root_of t)) ∥₁ }
    ensures checks { (d : Data) → HasData node.entry d → ChecksEntry (table_of hamt.now) room (form_of (table_of hamt.now) (slot_of hamt.now)) node.entry d result }
    ensures refused { (d : Data) → HasData node.entry d
        → RefusesEntry (table_of hamt.now) room (form_of (table_of hamt.now) (slot_of hamt.now)) (bytes_in at.entry) d result }
{
    let acc = hamt.schema();
    // They do no work: their clauses say what acceptance says of the table, and that what is refused has no front.
    acc.recall();
    refused_have_no_front();
    let Some(slot) = value_slot(acc, hamt) else {
        unreachable!();
    };
    match View::check(alloc, acc, slot, node, room) {
        Ok(view) => Ok(view),
        Err(ViewErr::Shape { ty: _, why, at: _ }) => Err(ReadFault::Block {
            id: at.id(),
            why: BlockWhy::Shape(why),
        }),
        Err(ViewErr::Memory) => Err(ReadFault::Memory),
    }
}
