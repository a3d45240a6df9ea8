//! Unions.
ghost use Rattle.std.specs.Prelude.{◌≡◌, ◌<◌, Some, false, length};
ghost use Rattle.ild_data.specs.Data.{Data};
ghost use Rattle.ild_layer_piece.specs.Pieces.{IsNumbered, StandsFor};
ghost use Rattle.ild_layer_places.specs.Places.{steps_of};
ghost use Rattle.ild_schema.specs.Kinds.{meant};
ghost use Rattle.ild_schema.specs.Table.{IsWithin as IsTypeWithin};
ghost use Rattle.ild_schema.specs.declared.def.TypeDef.TheVariants as D;
ghost use Rattle.ild_typed.specs.Spots.{member_steps};
ghost use Rattle.ild_union.specs.Forms.{passes_over};
ghost use Rattle.ild_view_walk.specs.inside.Inside.{IsOpenInside};
ghost use Rattle.ild_view_walk.specs.inside.Opens.{IsOpening, OpensPiece};

use crate::opening::{Opening, Stop};
use ild_cbor::{Piece, Why};
use ild_layer_parts::{Parts, value_part};
use ild_layer_places::Way;
use ild_schema::{Accepted, Mark, Member, Slot, TypeNo, UnionDef, UnionForm};
use ild_union::layer;

// Where the member of a union stands.
fn way_of<'b>(form: &'b UnionForm, member: &'b Member) -> Way<'b>
    ensures { steps_of result ≡ member_steps form.now member.now }
{
    match form {
        UnionForm::Keyed => match &member.mark {
            Mark::Text(name) => Way::Under(name.as_str()),
            Mark::Bare | Mark::Kind(_) => Way::Here,
        },
        UnionForm::Envelope(_, content) => Way::Under(content.as_str()),
        UnionForm::Kinded
        | UnionForm::StringPrefix
        | UnionForm::BytesPrefix
        | UnionForm::Inline(_) => Way::Here,
    }
}

/// The member of a union.
pub(crate) fn open_union<'b>(
    acc: &'b Accepted,
    ty: TypeNo,
    def: &'b UnionDef,
    piece: &Piece<'b>,
    room: u32,
) -> Result<Option<Opening<'b>>, Stop>
    requires within { ty.0 < length acc.now }
    requires known { meant acc.now ty.0 ≡ Some (D.Union def.now) }
    requires parts { IsTypeWithin (length acc.now) (D.Union def.now) }
    requires numbered { IsNumbered acc.now piece.now }
    requires plain { passes_over piece.now ≡ false }
    ensures opens { (t : Data) → StandsFor acc.now piece.now t → OpensPiece acc.now room (D.Union def.now) t result }
    ensures ready { IsOpening acc.now room result }
    ensures inside { IsOpenInside acc.now ty.0 piece.now result }
{
    acc.recall();
    let (number, part) = match layer(acc, ty, *piece) {
        Ok(found) => found,
        Err(why) => return Err(Stop::Why(why)),
    };
    let Some(room) = room.checked_sub(1) else {
        return Err(Stop::Why(Why::Depth));
    };
    let member = &def.members.as_slice()[number as usize];
    let slot = Slot {
        ty: member.ty,
        nullable: false,
    };
    Ok(Some(Opening {
        parts: Parts::Member(value_part(slot, part, way_of(&def.form, member))),
        room,
    }))
}
