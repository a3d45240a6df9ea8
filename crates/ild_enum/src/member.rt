//! The member of an enum that a piece stands for.
ghost use Rattle.std.specs.Prelude.{◌≡◌, ◌<◌, List, IfOk, MatchResult, Some, length};
ghost use Rattle.std.specs.Fmt.{signed_decimal};
ghost use Rattle.ild_data.specs.Data.{Data};
ghost use Rattle.ild_data.specs.Integer.{IsInt};
ghost use Rattle.ild_enum.specs.inside.Answers.{EnumAnswer};
ghost use Rattle.ild_enum.specs.Forms.{IsEnumType};
ghost use Rattle.ild_layer_piece.specs.Answers.{Layered, Refused};
ghost use Rattle.ild_layer_piece.specs.Pieces.{StandsFor};
ghost use Rattle.ild_schema.specs.Copies.{base};
ghost use Rattle.ild_schema.specs.Parts.{IsPartOf};
ghost use Rattle.ild_schema.specs.Rows.{def_at};
ghost use Rattle.ild_schema.specs.declared.def.EnumDef.{EnumDef};
ghost use Rattle.ild_schema.specs.declared.def.EnumForm.TheVariants as F;
ghost use Rattle.ild_schema.specs.declared.def.TypeDef.TheVariants as D;
ghost use Rattle.ild_typed.specs.Layer as L;

use ild_cbor::{Piece, Why};
use ild_data::Int;
use ild_layer_piece::{int, text};
use ild_schema::{Accepted, EnumForm, TypeDef, TypeNo};
use itoa::Buffer;

// The member that stands in a block as this text.
fn by_text(acc: &Accepted, ty: TypeNo, piece: &Piece<'_>) -> Result<usize, Why>
    requires { ty.0 < length acc.now }
    ensures answer { (t : Data) (e : EnumDef) → StandsFor acc.now piece.now t → def_at acc.now ty.0 ≡ Some (D.Enum e) → e.form ≡ F.Text → EnumAnswer e t result }
    ensures within { IfOk result (IsPartOf acc.now ty.0) }
{
    let Some(text) = text(piece) else {
        return Err(Why::Kind);
    };
    match acc.part_spelled(ty, text) {
        Some(number) => Ok(number),
        None => Err(Why::Member),
    }
}

// An integer in decimal.
fn decimal(buffer: &mut Buffer, integer: Int) -> &str
    ensures text { result.now ≡ signed_decimal integer }
    ensures within { IsInt integer }
{
    buffer.format(integer.get())
}

// The member that stands in a block as this integer, whose decimal is the text of one member at most.
fn by_integer(acc: &Accepted, ty: TypeNo, piece: &Piece<'_>) -> Result<usize, Why>
    requires { ty.0 < length acc.now }
    ensures answer { (t : Data) (e : EnumDef) → StandsFor acc.now piece.now t → def_at acc.now ty.0 ≡ Some (D.Enum e) → e.form ≡ F.Int → EnumAnswer e t result }
    ensures within { IfOk result (IsPartOf acc.now ty.0) }
{
    let Some(integer) = int(piece) else {
        return Err(Why::Kind);
    };
    acc.recall();
    let mut buffer = Buffer::new();
    match acc.part_spelled(ty, decimal(&mut buffer, integer)) {
        Some(number) => Ok(number),
        None => Err(Why::Member),
    }
}

/// The number of the member for which a piece stands, by its text or its integer. Else the first cause why it stands for
/// none.
pub fn layer<'b>(acc: &'b Accepted, ty: TypeNo, piece: Piece<'b>) -> Result<u32, Why>
    requires within { ty.0 < length acc.now }
    requires form { IsEnumType acc.now ty.0 }
    ensures answer { (t : Data) → StandsFor acc.now piece.entry t → MatchResult result (λ n. Layered acc.now ty.0 t (L.enum n)) (λ w. Refused acc.now ty.0 t w) }
    ensures within { IfOk result (IsPartOf acc.now (base acc.now ty.0)) }
{
    let base = acc.base(ty);
    match acc.def(base) {
        TypeDef::Enum(def) => {
            let number = match def.form {
                EnumForm::Text => by_text(acc, base, &piece)?,
                EnumForm::Int => by_integer(acc, base, &piece)?,
            };
            Ok(number as u32)
        }
        _ => unreachable!(),
    }
}
