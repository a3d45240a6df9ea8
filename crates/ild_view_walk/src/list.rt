//! Lists.
ghost use Rattle.std.specs.Prelude.{ℕ, List};
ghost use Rattle.ild_data.specs.Data.{Data};
ghost use Rattle.ild_layer_piece.specs.Pieces.{StandsFor};
ghost use Rattle.ild_schema.specs.declared.def.TypeDef.TheVariants as D;
ghost use Rattle.ild_schema.specs.declared.row.Row.{Row};
ghost use Rattle.ild_view_walk.specs.inside.Inside.{OpensMany};
ghost use Rattle.ild_view_walk.specs.inside.Opens.{IsOpening, OpensPiece};
ghost use Rattle.ild_layer_parts.specs.Ready.{IsIn};

use crate::opening::{Opening, Stop};
use ild_cbor::{Piece, Why};
use ild_layer_parts::{Elements, Parts};
use ild_layer_piece::items;
use ild_schema::Slot;

/// The elements of a list.
pub(crate) fn open_list<'b>(
    elem: Slot,
    piece: &Piece<'b>,
    room: u32,
) -> Result<Option<Opening<'b>>, Stop>
    ensures opens { (rows : List Row) (at : ℕ) (t : Data) → StandsFor rows piece.now t → OpensPiece rows room (D.List elem at) t result }
    ensures ready { (rows : List Row) → IsIn rows elem → IsOpening rows room result }
    ensures many { OpensMany result }
{
    let Some(items) = items(piece) else {
        return Err(Stop::Why(Why::Kind));
    };
    let Some(room) = room.checked_sub(1) else {
        return Err(Stop::Why(Why::Depth));
    };
    Ok(Some(Opening {
        parts: Parts::List(Elements::of(elem, items)),
        room,
    }))
}
