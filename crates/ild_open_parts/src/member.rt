//! The member of a union.
ghost use Rattle.std.specs.Prelude.{◌≡◌, ◌<◌, Some, false, length};
ghost use Rattle.ild_layer_piece.specs.Pieces.{IsNumbered};
ghost use Rattle.ild_schema.specs.Kinds.{meant};
ghost use Rattle.ild_schema.specs.Table.{IsWithin};
ghost use Rattle.ild_schema.specs.declared.def.TypeDef.TheVariants as D;
ghost use Rattle.ild_union.specs.Forms.{passes_over};
ghost use Rattle.ild_open_parts.specs.Checked.{IsLayered};
ghost use Rattle.ild_open_parts.specs.Member.{IsMemberOf};

use ild_cbor::Piece;
use ild_schema::{Accepted, Slot, TypeNo, UnionDef};
use ild_union::layer;

/// The member of a union for which a piece stands, which was checked against it: its number, the slot of its type, and its piece.
pub fn member_of<'b>(
    acc: &'b Accepted,
    ty: TypeNo,
    def: &'b UnionDef,
    piece: &Piece<'b>,
) -> (u32, Slot, Piece<'b>)
    requires within { ty.0 < length acc.now }
    requires known { meant acc.now ty.0 ≡ Some (D.Union def.now) }
    requires parts { IsWithin (length acc.now) (D.Union def.now) }
    requires numbered { IsNumbered acc.now piece.now }
    requires plain { passes_over piece.now ≡ false }
    requires layered { ∥ IsLayered acc.now (D.Union def.now) piece.now ∥₁ }
    ensures { IsMemberOf acc.now def.now piece.now result }
{
    acc.recall();
    let (number, part) = match layer(acc, ty, *piece) {
        Ok(found) => found,
        Err(_) => unreachable!(),
    };
    let member = &def.members.as_slice()[number as usize];
    let slot = Slot {
        ty: member.ty,
        nullable: false,
    };
    (number, slot, part)
}
