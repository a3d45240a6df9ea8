//! Types whose data have no parts.
ghost use Rattle.std.specs.Prelude.{◌≡◌, ◌<◌, ◌≤◌, List, Some, length};
ghost use Rattle.ild_data.specs.Data.{Data};
ghost use Rattle.ild_layer_piece.specs.Pieces.{IsNumbered, StandsFor};
ghost use Rattle.ild_schema.specs.Kinds.{meant};
ghost use Rattle.ild_schema.specs.declared.def.TypeDef.{TypeDef as Def};
ghost use Rattle.ild_schema.specs.declared.row.Row.{Row};
ghost use Rattle.ild_enum.specs.Forms.{IsEnumType, IsUnitType};
ghost use Rattle.ild_view_walk.specs.inside.Inside.{OpensMany};
ghost use Rattle.ild_view_walk.specs.inside.Opens.{IsOpening, OpensPiece};
ghost use Rattle.ild_layer_fields.specs.Told.{scalar_kind};

use crate::opening::{Opening, Stop};
use ild_cbor::{Kind, Piece, Why};
use ild_enum::{layer, unit};
use ild_layer_piece::kind;
use ild_schema::{Accepted, TypeNo};

/// A truth value, an integer, a text, bytes or a link.
pub(crate) fn open_scalar<'b>(
    wanted: Kind,
    piece: &Piece<'b>,
    room: u32,
) -> Result<Option<Opening<'b>>, Stop>
    ensures opens { (rows : List Row) (d : Def) (t : Data) → StandsFor rows piece.now t → scalar_kind d ≡ Some wanted → OpensPiece rows room d t result }
    ensures ready { (rows : List Row) → IsOpening rows room result }
    ensures many { OpensMany result }
{
    let _room = room;
    if kind(piece) == wanted {
        Ok(None)
    } else {
        Err(Stop::Why(Why::Kind))
    }
}

/// A member of an enum.
pub(crate) fn open_enum<'b>(
    acc: &'b Accepted,
    ty: TypeNo,
    piece: &Piece<'b>,
    room: u32,
) -> Result<Option<Opening<'b>>, Stop>
    requires within { ty.0 < length acc.now }
    requires form { IsEnumType acc.now ty.0 }
    ensures opens { (d : Def) (t : Data) → StandsFor acc.now piece.now t → meant acc.now ty.0 ≡ Some d → OpensPiece acc.now room d t result }
    ensures ready { IsOpening acc.now room result }
    ensures many { OpensMany result }
{
    let _room = room;
    acc.recall();
    match layer(acc, ty, *piece) {
        Ok(_) => Ok(None),
        Err(why) => Err(Stop::Why(why)),
    }
}

/// A unit.
pub(crate) fn open_unit<'b>(
    acc: &'b Accepted,
    ty: TypeNo,
    piece: &Piece<'b>,
    room: u32,
) -> Result<Option<Opening<'b>>, Stop>
    requires within { ty.0 < length acc.now }
    requires form { IsUnitType acc.now ty.0 }
    requires numbered { IsNumbered acc.now piece.now }
    ensures opens { (d : Def) (t : Data) → StandsFor acc.now piece.now t → meant acc.now ty.0 ≡ Some d → OpensPiece acc.now room d t result }
    ensures ready { IsOpening acc.now room result }
    ensures many { OpensMany result }
{
    acc.recall();
    match unit(acc, ty, *piece) {
        Ok(()) => {
            if room < 1 {
                Err(Stop::Why(Why::Depth))
            } else {
                Ok(None)
            }
        }
        Err(why) => Err(Stop::Why(why)),
    }
}
