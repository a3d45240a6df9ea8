//! The layer of a union, form by form.
ghost use Rattle.std.specs.Prelude.{◌≡◌, ◌<◌, IfOk, MatchResult, length};
ghost use Rattle.ild_data.specs.Data.{Data};
ghost use Rattle.ild_layer_piece.specs.Answers.{Layered, Refused};
ghost use Rattle.ild_layer_piece.specs.Pieces.{IsNumbered, StandsFor};
ghost use Rattle.ild_schema.specs.Copies.{base};
ghost use Rattle.ild_schema.specs.Parts.{IsPartOf};
ghost use Rattle.ild_schema.specs.Rows.{def_at};
ghost use Rattle.ild_schema.specs.Table.{IsWithin};
ghost use Rattle.ild_schema.specs.declared.def.TypeDef.TheVariants as D;
ghost use Rattle.ild_typed.specs.Layer as L;
ghost use Rattle.ild_union.specs.inside.Answers.{UnionAnswer};
ghost use Rattle.ild_union.specs.Forms.{IsInlineOf, IsPassedBy, IsPassedOnce, IsUnionType};

use crate::envelope::envelope;
use crate::inline::inline;
use crate::keyed::keyed;
use crate::kinded::kinded;
use crate::prefixed::{behind_bytes, behind_text};
use ild_cbor::{Piece, Why};
use ild_schema::{Accepted, TypeDef, TypeNo, UnionDef, UnionForm};

fn of_form<'b>(
    acc: &'b Accepted,
    own: TypeNo,
    ty: TypeNo,
    def: &UnionDef,
    piece: &Piece<'b>,
) -> Result<(u32, Piece<'b>), Why>
    requires within { own.0 < length acc.now }
    requires base { ty.0 ≡ base acc.now own.0 }
    requires there { ty.0 < length acc.now }
    requires known { def_at acc.now ty.0 ≡ Some (D.Union def.now) }
    requires parts { IsWithin (length acc.now) (D.Union def.now) }
    requires numbered { IsNumbered acc.now piece.now }
    requires once { IsPassedOnce acc.now own.0 piece.now }
    ensures answer { (t : Data) → StandsFor acc.now piece.now t → UnionAnswer acc.now def.now t result }
    ensures within { IfOk result (λ p. IsPartOf acc.now ty.0 p.0) }
    ensures numbered { IfOk result (λ p. IsNumbered acc.now p.1) }
    ensures passed { IfOk result (λ p. IsPassedBy acc.now own.0 piece.now p.1) }
    ensures inlined { IfOk result (λ p. IsInlineOf acc.now own.0 piece.now p.1) }
{
    match &def.form {
        UnionForm::Keyed => keyed(acc, ty, piece),
        UnionForm::Kinded => kinded(def, piece),
        UnionForm::StringPrefix => behind_text(def, piece),
        UnionForm::BytesPrefix => behind_bytes(def, piece),
        UnionForm::Envelope(key, content) => envelope(
            acc,
            ty,
            key.as_str(),
            content.as_str(),
            piece,
        ),
        UnionForm::Inline(key) => match piece {
            Piece::Node(node) => inline(acc, own, ty, key.as_str(), node),
            Piece::Text(_) | Piece::Bytes(_) => Err(Why::Kind),
            Piece::Inline(_, _) => unreachable!(),
        },
    }
}

/// The number of the member for which a piece stands, and the member's own piece. Else the first cause why it stands for
/// none. Where the discriminant stands inline, the member's piece passes over the entry of this union's, by its number `ty`
/// as it is given; the piece itself passes over none then, as a member of such a union is a struct.
pub fn layer<'b>(acc: &'b Accepted, ty: TypeNo, piece: Piece<'b>) -> Result<(u32, Piece<'b>), Why>
    requires within { ty.0 < length acc.now }
    requires form { IsUnionType acc.now ty.0 }
    requires numbered { IsNumbered acc.now piece }
    requires once { IsPassedOnce acc.now ty.0 piece }
    ensures answer { (t : Data) → StandsFor acc.now piece.entry t → MatchResult result
        (λ p. (d : Data) × StandsFor acc.now p.1 d × Layered acc.now ty.0 t (L.union p.0 d))
        (λ w. Refused acc.now ty.0 t w) }
    ensures within { IfOk result (λ p. IsPartOf acc.now (base acc.now ty.0) p.0) }
    ensures numbered { IfOk result (λ p. IsNumbered acc.now p.1) }
    ensures passed { IfOk result (λ p. IsPassedBy acc.now ty.0 piece.entry p.1) }
    ensures inlined { IfOk result (λ p. IsInlineOf acc.now ty.0 piece.entry p.1) }
{
    let base = acc.base(ty);
    match acc.def(base) {
        TypeDef::Union(def) => of_form(acc, ty, base, def, &piece),
        _ => unreachable!(),
    }
}
