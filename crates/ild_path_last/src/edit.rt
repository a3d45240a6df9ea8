//! The edits of a last holder, verb by verb.
ghost use Rattle.std.specs.Prelude.{◌<◌, length};
ghost use Rattle.ild_cbor.specs.Nodes.{HasData};
ghost use Rattle.ild_path_last.specs.Change.{DeleteIs, InsertIs, SetIs};
ghost use Rattle.ild_layer_piece.specs.Pieces.{IsNumbered, StandsFor};

use crate::change::LastChange;
use crate::items::{is_listed, item_gone, item_new, item_set};
use crate::named::named_change;
use ild_cbor::{Node, Piece};
use ild_schema::{Accepted, Slot};

/// What changes where the part at a segment is set, in a value of a slot that stands as a piece of a block: a field, a member, the
/// value at a key, there before or not, or an element that is there.
pub fn set_change<'a>(
    acc: &'a Accepted,
    slot: Slot,
    piece: &Piece<'_>,
    segment: &'a str,
    new: &Node<'_>,
) -> LastChange<'a>
    requires within { slot.ty.0 < length acc.now }
    requires numbered { IsNumbered acc.now piece.now }
    ensures { SetIs acc.now (StandsFor acc.now piece.now) (HasData new.now) slot segment.now result }
{
    if is_listed(acc, slot, piece) {
        item_set(segment)
    } else {
        named_change(acc, slot, piece, segment, Some(*new))
    }
}

/// What changes where a new part comes at a segment: an absent field, a new key, an element at an index or at the end.
pub fn insert_change<'a>(
    acc: &'a Accepted,
    slot: Slot,
    piece: &Piece<'_>,
    segment: &'a str,
    new: &Node<'_>,
) -> LastChange<'a>
    requires within { slot.ty.0 < length acc.now }
    requires numbered { IsNumbered acc.now piece.now }
    ensures { InsertIs acc.now (StandsFor acc.now piece.now) (HasData new.now) slot segment.now result }
{
    if is_listed(acc, slot, piece) {
        item_new(piece, segment)
    } else {
        named_change(acc, slot, piece, segment, Some(*new))
    }
}

/// What changes where the part at a segment is deleted: an optional field, the entry at a key, an element.
pub fn delete_change<'a>(
    acc: &'a Accepted,
    slot: Slot,
    piece: &Piece<'_>,
    segment: &'a str,
) -> LastChange<'a>
    requires within { slot.ty.0 < length acc.now }
    requires numbered { IsNumbered acc.now piece.now }
    ensures { DeleteIs acc.now (StandsFor acc.now piece.now) slot segment.now result }
{
    if is_listed(acc, slot, piece) {
        item_gone(segment)
    } else {
        named_change(acc, slot, piece, segment, None)
    }
}
