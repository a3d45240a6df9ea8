//! What is wrong with an entry in a bucket.
ghost use Rattle.std.specs.Prelude.{◌≡◌, ◌<◌, length};
ghost use Rattle.ild_data.specs.Data.{Data};
ghost use Rattle.ild_cbor.specs.Nodes.{HasData};
ghost use Rattle.ild_cbor.specs.declared.why.BlockWhy.TheVariants as B;
ghost use Rattle.ild_cbor.specs.declared.why.Why.TheVariants as W;
ghost use Rattle.ild_open_parts.specs.Hamts.{part_fault};
ghost use Rattle.ild_open_parts.specs.declared.fault.OpenFault.TheVariants as F;
ghost use Rattle.ild_open_nodes.specs.Reading.{EntryChecks};

use ild_cbor::{BlockWhy, Node, Why};
use ild_data::BlockId;
use ild_open_parts::OpenFault;
use ild_schema::{Accepted, Slot, TypeNo};
use ild_view_walk::{ViewErr, check_item, check_key};
use std::alloc::Global;

/// That the block under an id isn't a node that a HAMT has there.
pub fn no_trie(id: BlockId) -> OpenFault
    ensures { result ≡ F.Block id (B.Shape W.Trie) }
{
    OpenFault::Block {
        id,
        why: BlockWhy::Shape(Why::Trie),
    }
}

// The refusal of a key or of a value that stands in a block.
fn part_fault(id: BlockId, fault: ViewErr) -> OpenFault
    ensures { result ≡ part_fault id fault }
{
    match fault {
        ViewErr::Shape { why, .. } => OpenFault::Block {
            id,
            why: BlockWhy::Shape(why),
        },
        ViewErr::Memory => OpenFault::Memory,
    }
}

/// Whether the key of an entry and its value fit in a room, or which of them is refused, in the block of this id.
pub fn entry_fits(
    alloc: Global,
    acc: &Accepted,
    ty: TypeNo,
    slot: Slot,
    room: u32,
    key: &str,
    item: Node<'_>,
    at: BlockId,
) -> Result<(), OpenFault>
    requires keyed { ty.0 < length acc.now }
    requires within { slot.ty.0 < length acc.now }
    ensures { (t : Data) → HasData item.entry t → EntryChecks acc.now room ty slot key.now t at result }
{
    if let Err(fault) = check_key(alloc, acc, ty, key, room) {
        return Err(part_fault(at, fault));
    }
    match check_item(alloc, acc, slot, item, room) {
        Ok(()) => Ok(()),
        Err(fault) => Err(part_fault(at, fault)),
    }
}
