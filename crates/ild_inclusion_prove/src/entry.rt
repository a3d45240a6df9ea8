//! The value of an entry in a HAMT.
ghost use Rattle.ild_cbor.specs.Nodes.{HasData};
ghost use Rattle.ild_data.specs.Data.{Data};
ghost use Rattle.ild_inclusion_prove.specs.inside.Faults.{IsAlone, viewed_as};
ghost use Rattle.ild_run_follow.specs.inside.Enters.{ChecksEntry, RefusesEntry};
ghost use Rattle.ild_schema.specs.Slots.{form_of};
ghost use Rattle.ild_schema.specs.Value.{hamt as root_of};
ghost use Rattle.ild_view.specs.View.{IsView, slot_of, table_of};

use ild_cbor::{BlockWhy, Node};
use ild_data::block_id;
use ild_node::HamtFault;
use ild_path_room::value_slot;
use ild_typed::refused_have_no_front;
use ild_view::{View, ViewErr};
use std::alloc::Global;

/// The view of the value of an entry in a HAMT, which may nest so many levels, and is checked against the slot of the HAMT's values. Where
/// it is none of them, the block in which it stands is refused: the one that is handed in.
pub(crate) fn entry_view<'b>(
    alloc: Global,
    hamt: &View<'b>,
    node: Node<'b>,
    block: &[u8],
    room: u32,
) -> Result<View<'b>, HamtFault>
    requires { ∥ ((t : Data) × IsView hamt.now (root_of t)) ∥₁ }
    ensures alone { IsAlone result }
    ensures checks { (d : Data) → HasData node.entry d → ChecksEntry (table_of hamt.now) room (form_of (table_of hamt.now) (slot_of hamt.now)) node.entry d (viewed_as result) }
    ensures refused { (d : Data) → HasData node.entry d
        → RefusesEntry (table_of hamt.now) room (form_of (table_of hamt.now) (slot_of hamt.now)) block.now d (viewed_as result) }
{
    let acc = hamt.schema();
    // They do no work: their clauses say what acceptance says of the table, and that what is refused has no front.
    acc.recall();
    refused_have_no_front();
    let Some(slot) = value_slot(acc, hamt) else {
        unreachable!();
    };
    match View::check(alloc, acc, slot, node, room) {
        Ok(view) => Ok(view),
        Err(ViewErr::Shape { ty: _, why, at: _ }) => Err(HamtFault::Block {
            id: block_id(block),
            why: BlockWhy::Shape(why),
        }),
        Err(ViewErr::Memory) => Err(HamtFault::Memory),
    }
}
