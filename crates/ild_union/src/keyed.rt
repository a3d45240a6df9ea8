//! A union whose discriminant is the key of its only entry.
ghost use Rattle.std.specs.Prelude.{◌≡◌, ◌<◌, IfOk, false, length};
ghost use Rattle.std.specs.Option.{option_and_then};
ghost use Rattle.ild_data.specs.Data.{Data};
ghost use Rattle.ild_layer_piece.specs.Pieces.{IsNumbered, StandsFor};
ghost use Rattle.ild_schema.specs.Parts.{IsPartOf, part_spelled};
ghost use Rattle.ild_schema.specs.Rows.{def_at};
ghost use Rattle.ild_schema.specs.declared.def.TypeDef.TheVariants as D;
ghost use Rattle.ild_schema.specs.declared.def.UnionDef.{UnionDef};
ghost use Rattle.ild_schema.specs.declared.def.UnionForm.TheVariants as F;
ghost use Rattle.ild_union.specs.inside.Answers.{UnionAnswer, member_of};
ghost use Rattle.ild_union.specs.Forms.{passes_over};

use ild_cbor::{Piece, Why};
use ild_layer_piece::entries;
use ild_schema::{Accepted, TypeNo};

/// The member with a discriminant, for which the part stands.
pub(crate) fn member<'b>(
    acc: &Accepted,
    ty: TypeNo,
    name: &str,
    part: Piece<'b>,
) -> Result<(u32, Piece<'b>), Why>
    requires { ty.0 < length acc.now }
    ensures answer { result ≡ member_of part.entry (option_and_then (part_spelled name.now) (def_at acc.now ty.0)) }
    ensures within { IfOk result (λ p. IsPartOf acc.now ty.0 p.0) }
    ensures same { IfOk result (λ p. p.1 ≡ part.entry) }
{
    let _def = acc.def(ty);
    match acc.part_spelled(ty, name) {
        Some(number) => Ok((number as u32, part)),
        None => Err(Why::Member),
    }
}

/// The member under the only key.
pub(crate) fn keyed<'b>(
    acc: &'b Accepted,
    ty: TypeNo,
    piece: &Piece<'b>,
) -> Result<(u32, Piece<'b>), Why>
    requires within { ty.0 < length acc.now }
    requires numbered { IsNumbered acc.now piece.now }
    ensures answer { (t : Data) (u : UnionDef) → StandsFor acc.now piece.now t → def_at acc.now ty.0 ≡ Some (D.Union u) → u.form ≡ F.Keyed → UnionAnswer acc.now u t result }
    ensures within { IfOk result (λ p. IsPartOf acc.now ty.0 p.0) }
    ensures plain { IfOk result (λ p. passes_over p.1 ≡ false) }
{
    let Some(mut left) = entries(acc, piece) else {
        return Err(Why::Kind);
    };
    let Some((name, node)) = left.next() else {
        return Err(Why::Count);
    };
    match left.next() {
        None => member(acc, ty, name, Piece::Node(node)),
        Some(_) => Err(Why::Count),
    }
}
