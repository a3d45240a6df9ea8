//! A union whose discriminant stands among the entries of its member.
ghost use Rattle.std.specs.Prelude.{◌≡◌, ◌<◌, IfOk, length};
ghost use Rattle.ild_cbor.specs.Nodes.{HasData};
ghost use Rattle.ild_cbor.specs.declared.piece.Piece.TheVariants as P;
ghost use Rattle.ild_data.specs.Data.{Data};
ghost use Rattle.ild_layer_piece.specs.Pieces.{IsNumbered, passed_key};
ghost use Rattle.ild_schema.specs.Parts.{IsPartOf};
ghost use Rattle.ild_schema.specs.Rows.{def_at};
ghost use Rattle.ild_schema.specs.declared.def.TypeDef.TheVariants as D;
ghost use Rattle.ild_schema.specs.declared.def.UnionDef.{UnionDef};
ghost use Rattle.ild_schema.specs.declared.def.UnionForm.TheVariants as F;
ghost use Rattle.ild_union.specs.inside.Answers.{UnionAnswer};

use crate::keyed::member;
use ild_cbor::{Kind, Node, Piece, Why};
use ild_schema::{Accepted, TypeNo};

/// The member whose entries stand beside that of the discriminant, which is passed over as that of the union `own`.
pub(crate) fn inline<'b>(
    acc: &'b Accepted,
    own: TypeNo,
    ty: TypeNo,
    key: &str,
    node: &Node<'b>,
) -> Result<(u32, Piece<'b>), Why>
    requires within { ty.0 < length acc.now }
    requires numbered { own.0 < length acc.now }
    ensures answer { (t : Data) (u : UnionDef) → HasData node.now t → def_at acc.now ty.0 ≡ Some (D.Union u)
        → u.form ≡ F.Inline key.now → passed_key acc.now own.0 ≡ Some key.now → UnionAnswer acc.now u t result }
    ensures within { IfOk result (λ p. IsPartOf acc.now ty.0 p.0) }
    ensures numbered { IfOk result (λ p. IsNumbered acc.now p.1) }
    ensures same { IfOk result (λ p. p.1 ≡ P.Inline node.now own.0) }
{
    let Kind::Map = node.kind() else {
        return Err(Why::Kind);
    };
    let Some(discriminant) = node.entry(key) else {
        return Err(Why::Missing);
    };
    let Some(name) = discriminant.text() else {
        return Err(Why::Member);
    };
    member(acc, ty, name, Piece::Inline(*node, own.0))
}
