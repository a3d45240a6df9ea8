//! Parts of a piece.
ghost use Rattle.std.specs.Prelude.{◌≡◌, false, true};
ghost use Rattle.ild_schema.specs.Slots.{plainly};
ghost use Rattle.ild_cbor.specs.declared.piece.Piece.TheVariants.{Text};

use ild_cbor::Piece;
use ild_layer_places::Way;
use ild_schema::{Slot, TypeNo};

/// A part of a piece: the slot that the type gives it, what stands for it, and where.
#[derive(Clone, Copy)]
pub struct Part<'b> {
    pub slot: Slot,
    pub piece: Piece<'b>,
    pub is_key: bool,
    pub way: Way<'b>,
}

/// A key of a map, as a value of the type of its keys.
pub(crate) fn key_part<'b>(ty: TypeNo, key: &'b str, way: Way<'b>) -> Part<'b>
    ensures { result ≡ record { slot = plainly ty; piece = Text key.entry; is_key = true; way = way.entry } }
{
    Part {
        slot: Slot {
            ty,
            nullable: false,
        },
        piece: Piece::Text(key),
        is_key: true,
        way,
    }
}

/// A value.
pub fn value_part<'b>(slot: Slot, piece: Piece<'b>, way: Way<'b>) -> Part<'b>
    ensures { result ≡ record { slot = slot; piece = piece.entry; is_key = false; way = way.entry } }
{
    Part {
        slot,
        piece,
        is_key: false,
        way,
    }
}
