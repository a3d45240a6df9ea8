//! A union whose discriminant and member stand under two keys.
ghost use Rattle.std.specs.Prelude.{◌≡◌, ◌<◌, ◌||◌, ◌&&◌, IfOk, List, false, ℕ, length};
ghost use Rattle.ild_data.specs.Data.{Data};
ghost use Rattle.ild_data.specs.Key.{Rises, same_text};
ghost use Rattle.ild_layer_piece.specs.Entries.{HasLeft};
ghost use Rattle.ild_layer_piece.specs.Pieces.{IsNumbered, StandsFor};
ghost use Rattle.ild_schema.specs.Parts.{IsPartOf};
ghost use Rattle.ild_schema.specs.Rows.{def_at};
ghost use Rattle.ild_schema.specs.declared.def.TypeDef.TheVariants as D;
ghost use Rattle.ild_schema.specs.declared.def.UnionDef.{UnionDef};
ghost use Rattle.ild_schema.specs.declared.def.UnionForm.TheVariants as F;
ghost use Rattle.ild_union.specs.inside.Answers.{UnionAnswer};
ghost use Rattle.ild_union.specs.inside.Envelope.{BothAnswer, is_one};
ghost use Rattle.ild_union.specs.Forms.{passes_over};

use crate::keyed::member;
use ild_cbor::{Node, Piece, Why};
use ild_layer_piece::{MapEntries, entries};
use ild_schema::{Accepted, TypeNo};

fn same(a: &str, b: &str) -> bool
    ensures { result ≡ same_text a.now b.now }
{
    a == b
}

fn is_one(key: &str, content: &str, name: &str) -> bool
    ensures { result ≡ is_one key.now content.now name.now }
{
    same(key, name) || same(content, name)
}

fn are_both(first: &str, second: &str, name: &str, next: &str) -> bool
    ensures { result ≡ (same_text first.now name.now && same_text second.now next.now) }
{
    same(first, name) && same(second, next)
}

// The values under both keys. Of keys that rise three are never of two, so that no more are read.
fn both<'b>(mut left: MapEntries<'b>, key: &str, content: &str) -> Result<(Node<'b>, Node<'b>), Why>
    ensures { (es : List (List ℕ × Data)) → HasLeft left.entry es → Rises es → (key.now ≡ content.now → ⊥) → BothAnswer key.now content.now es result }
{
    let Some((first, one)) = left.next() else {
        return Err(Why::Missing);
    };
    let Some((second, two)) = left.next() else {
        if is_one(key, content, first) {
            return Err(Why::Missing);
        }
        return Err(Why::Name);
    };
    if let Some(_) = left.next() {
        return Err(Why::Name);
    }
    if are_both(key, content, first, second) {
        return Ok((one, two));
    }
    if are_both(content, key, first, second) {
        return Ok((two, one));
    }
    Err(Why::Name)
}

/// The member under the key of the content.
pub(crate) fn envelope<'b>(
    acc: &'b Accepted,
    ty: TypeNo,
    key: &str,
    content: &str,
    piece: &Piece<'b>,
) -> Result<(u32, Piece<'b>), Why>
    requires within { ty.0 < length acc.now }
    requires numbered { IsNumbered acc.now piece.now }
    ensures answer { (t : Data) (u : UnionDef) → StandsFor acc.now piece.now t → def_at acc.now ty.0 ≡ Some (D.Union u) → u.form ≡ F.Envelope key.now content.now → UnionAnswer acc.now u t result }
    ensures within { IfOk result (λ p. IsPartOf acc.now ty.0 p.0) }
    ensures plain { IfOk result (λ p. passes_over p.1 ≡ false) }
{
    acc.recall();
    let Some(left) = entries(acc, piece) else {
        return Err(Why::Kind);
    };
    let (discriminant, content_node) = both(left, key, content)?;
    let Some(name) = discriminant.text() else {
        return Err(Why::Member);
    };
    member(acc, ty, name, Piece::Node(content_node))
}
