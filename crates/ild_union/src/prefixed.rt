//! Unions whose member stands behind a prefix, of a text or of bytes.
ghost use Rattle.std.specs.Prelude.{◌≡◌, ◌<◌, ◌≤◌, IfOk, List, false, length};
ghost use Rattle.ild_data.specs.Data.{Data};
ghost use Rattle.ild_layer_piece.specs.Pieces.{StandsFor};
ghost use Rattle.ild_schema.specs.declared.def.UnionForm.TheVariants as F;
ghost use Rattle.ild_schema.specs.declared.row.Row.{Row};
ghost use Rattle.ild_union.specs.inside.Answers.{UnionAnswer};
ghost use Rattle.ild_union.specs.Forms.{passes_over};

use ild_cbor::{Piece, Why};
use ild_layer_piece::{bytes, text};
use ild_schema::UnionDef;
use ild_text::{bytes_prefix, prefix};

/// The member behind its prefix in a text.
pub(crate) fn behind_text<'b>(def: &UnionDef, piece: &Piece<'b>) -> Result<(u32, Piece<'b>), Why>
    requires { length def.now.members ≤ 1024 }
    ensures answer { (rows : List Row) (t : Data) → StandsFor rows piece.now t → def.now.form ≡ F.StringPrefix → UnionAnswer rows def.now t result }
    ensures within { IfOk result (λ p. p.0 < length def.now.members) }
    ensures plain { IfOk result (λ p. passes_over p.1 ≡ false) }
{
    let Some(text) = text(piece) else {
        return Err(Why::Kind);
    };
    match prefix(text, def) {
        Some((number, rest)) => Ok((number, Piece::Text(rest))),
        None => Err(Why::Prefix),
    }
}

/// The member behind its prefix in bytes.
pub(crate) fn behind_bytes<'b>(def: &UnionDef, piece: &Piece<'b>) -> Result<(u32, Piece<'b>), Why>
    requires { length def.now.members ≤ 1024 }
    ensures answer { (rows : List Row) (t : Data) → StandsFor rows piece.now t → def.now.form ≡ F.BytesPrefix → UnionAnswer rows def.now t result }
    ensures within { IfOk result (λ p. p.0 < length def.now.members) }
    ensures plain { IfOk result (λ p. passes_over p.1 ≡ false) }
{
    let Some(bytes) = bytes(piece) else {
        return Err(Why::Kind);
    };
    match bytes_prefix(bytes, def) {
        Some((number, rest)) => Ok((number, Piece::Bytes(rest))),
        None => Err(Why::Prefix),
    }
}
