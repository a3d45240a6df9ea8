//! Maps as maps.
ghost use Rattle.std.specs.Prelude.{ℕ};
ghost use Rattle.ild_data.specs.Data.{Data};
ghost use Rattle.ild_layer_piece.specs.Pieces.{IsNumbered, StandsFor};
ghost use Rattle.ild_schema.specs.Slots.{plainly};
ghost use Rattle.ild_schema.specs.declared.def.MapForm.TheVariants as MF;
ghost use Rattle.ild_schema.specs.declared.def.TypeDef.TheVariants as D;
ghost use Rattle.ild_typed.specs.WhyLaws.{KeysRise};
ghost use Rattle.ild_view_walk.specs.inside.Inside.{OpensMany};
ghost use Rattle.ild_view_walk.specs.inside.Opens.{IsOpening, OpensPiece};
ghost use Rattle.ild_layer_parts.specs.Ready.{IsIn};

use crate::opening::{Opening, Stop};
use ild_cbor::{Piece, Why};
use ild_layer_parts::{Entries, Parts};
use ild_layer_piece::entries;
use ild_schema::{Accepted, Slot, TypeNo};

/// The entries of a map.
pub(crate) fn open_map<'b>(
    acc: &'b Accepted,
    key: TypeNo,
    value: Slot,
    piece: &Piece<'b>,
    room: u32,
) -> Result<Option<Opening<'b>>, Stop>
    requires numbered { IsNumbered acc.now piece.now }
    ensures opens { (key_at at : ℕ) (t : Data) → StandsFor acc.now piece.now t → KeysRise t → OpensPiece acc.now room (D.Map key key_at value at MF.Map) t result }
    ensures ready { IsIn acc.now (plainly key) → IsIn acc.now value → IsOpening acc.now room result }
    ensures many { OpensMany result }
{
    let Some(left) = entries(acc, piece) else {
        return Err(Stop::Why(Why::Kind));
    };
    let Some(room) = room.checked_sub(1) else {
        return Err(Stop::Why(Why::Depth));
    };
    Ok(Some(Opening {
        parts: Parts::Map(Entries::of(key, value, left)),
        room,
    }))
}
