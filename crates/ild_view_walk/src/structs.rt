//! Structs.
ghost use Rattle.std.specs.Prelude.{◌≡◌, ◌<◌, Some, length};
ghost use Rattle.ild_data.specs.Data.{Data};
ghost use Rattle.ild_layer_piece.specs.Pieces.{IsNumbered, StandsFor};
ghost use Rattle.ild_schema.specs.Kinds.{meant};
ghost use Rattle.ild_schema.specs.Table.{IsWithin as IsTypeWithin};
ghost use Rattle.ild_schema.specs.declared.def.TypeDef.TheVariants as D;
ghost use Rattle.ild_typed.specs.Levels.{struct_levels};
ghost use Rattle.ild_view_walk.specs.inside.Inside.{OpensMany};
ghost use Rattle.ild_view_walk.specs.inside.Opens.{IsOpening, OpensPiece};

use crate::opening::{Opening, Stop};
use ild_cbor::{Piece, Why};
use ild_layer_parts::{Fields, Parts};
use ild_schema::{Accepted, StructDef, StructForm, TypeNo};
use ild_struct::layer;

// How many levels a form takes.
fn levels(form: &StructForm) -> u32
    ensures same { result ≡ struct_levels form.now }
    ensures some { 0 < result }
{
    match form {
        StructForm::Map
        | StructForm::Tuple
        | StructForm::StringPairs(_, _)
        | StructForm::StringJoin(_) => 1,
        StructForm::ListPairs => 2,
    }
}

/// The fields of a struct.
pub(crate) fn open_struct<'b>(
    acc: &'b Accepted,
    ty: TypeNo,
    def: &'b StructDef,
    piece: &Piece<'b>,
    room: u32,
) -> Result<Option<Opening<'b>>, Stop>
    requires within { ty.0 < length acc.now }
    requires known { meant acc.now ty.0 ≡ Some (D.Struct def.now) }
    requires parts { IsTypeWithin (length acc.now) (D.Struct def.now) }
    requires numbered { IsNumbered acc.now piece.now }
    ensures opens { (t : Data) → StandsFor acc.now piece.now t → OpensPiece acc.now room (D.Struct def.now) t result }
    ensures ready { IsOpening acc.now room result }
    ensures many { OpensMany result }
{
    acc.recall();
    let parts = match layer(acc, ty, *piece) {
        Ok(parts) => parts,
        Err(why) => return Err(Stop::Why(why)),
    };
    let Some(room) = room.checked_sub(levels(&def.form)) else {
        return Err(Stop::Why(Why::Depth));
    };
    Ok(Some(Opening {
        parts: Parts::Struct(Fields::of(def, parts)),
        room,
    }))
}
