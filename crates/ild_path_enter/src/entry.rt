//! The value at the end of a trail.
ghost use Rattle.std.specs.Prelude.{◌≡◌, ◌<◌, length, true};
ghost use Rattle.ild_cbor.specs.Nodes.{HasData};
ghost use Rattle.ild_data.specs.Data.{Data};
ghost use Rattle.ild_path_enter.specs.Enters.{EntryAnswer, NamesBlock};
ghost use Rattle.ild_view.specs.Safe.{is_safe};

use ild_cbor::{BlockWhy, Node};
use ild_data::block_id;
use ild_node::HamtFault;
use ild_path_entry::{Entry, EntryErr};
use ild_schema::{Accepted, Slot};
use std::alloc::Global;

/// The value that an item is; where it is none, the block in which it stands is at fault: the one that is handed in.
pub(crate) fn entry_in<'s>(
    alloc: Global,
    acc: &'s Accepted,
    slot: Slot,
    item: &Node<'_>,
    block: &[u8],
    room: u32,
) -> Result<Entry<'s>, HamtFault>
    requires within { slot.ty.0 < length acc.now }
    requires safe { is_safe acc.now slot ≡ true }
    ensures entry { (t : Data) → HasData item.now t → EntryAnswer acc.now slot room t result }
    ensures named { NamesBlock block.now result }
{
    match Entry::of(alloc, acc, slot, item, room) {
        Ok(entry) => Ok(entry),
        Err(EntryErr::Shape(why)) => Err(HamtFault::Block {
            id: block_id(block),
            why: BlockWhy::Shape(why),
        }),
        Err(EntryErr::Memory) => Err(HamtFault::Memory),
    }
}
