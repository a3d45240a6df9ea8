//! The value for which a piece stands.
ghost use Rattle.std.specs.Prelude.{◌<◌, ◌≤◌, length};
ghost use Rattle.ild_open_parts.specs.Checked.{IsChecked};
ghost use Rattle.ild_layer_parts.specs.Ready.{IsInlined};
ghost use Rattle.ild_layer_piece.specs.Pieces.{IsNumbered};
ghost use Rattle.ild_open_read.specs.Parts.{ReadsSlot};

use crate::reader::Reader;
use crate::reading::read_slot;
use ild_cbor::Piece;
use ild_data::{BlockId, KeyHash};
use ild_edges::Store;
use ild_open_known::Known;
use ild_open_parts::OpenFault;
use ild_schema::{Accepted, Slot, Val};
use std::alloc::Global;

/// The value of a slot for which a piece stands, which was checked against the slot, in a room. Its nodes are read from a store; the
/// value is made only where it is to be kept, and else a HAMT is read again only where it stands deeper than where it was read.
pub fn read<'b, K: Store, H: KeyHash>(
    alloc: Global,
    acc: &'b Accepted,
    slot: Slot,
    piece: &Piece<'b>,
    room: u32,
    keep: bool,
    at: BlockId,
    keys: &H,
    store: &mut K,
) -> Result<Val, OpenFault>
    requires within { slot.ty.0 < length acc.now }
    requires numbered { IsNumbered acc.now piece.now }
    requires inlined { IsInlined acc.now slot piece.now }
    requires room { room ≤ 96 }
    requires checked { ∥ IsChecked acc.now room slot piece.now ∥₁ }
    ensures { ReadsSlot H.hash_of at.0 acc.now room keep slot piece.now (K.moment store.old) result (K.moment store.new) }
{
    let reader = Reader { alloc, keep, keys };
    let mut known = Known::new(alloc);
    read_slot(&reader, acc, slot, piece, room, at, &mut known, store)
}
