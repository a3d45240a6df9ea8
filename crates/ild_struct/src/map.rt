//! Structs as maps.
ghost use Rattle.std.specs.Prelude.{◌≡◌, IfOk, true};
ghost use Rattle.ild_data.specs.Data.{Data};
ghost use Rattle.ild_layer_piece.specs.Pieces.{IsNumbered, StandsFor};
ghost use Rattle.ild_schema.specs.Clear.{AreNamesApart};
ghost use Rattle.ild_schema.specs.declared.def.StructForm.TheVariants as S;
ghost use Rattle.ild_struct.specs.inside.Reading.{AnswersFound};
ghost use Rattle.ild_struct.specs.Source.{IsSourced};
ghost use Rattle.ild_struct.specs.Told.{IsSurveyed};

use crate::source::Source;
use ild_cbor::{Piece, Why};
use ild_layer_fields::{Fields, note_entries};
use ild_layer_piece::entries;

/// A map in which the fields are looked up, and whether kinds tell that all its values are those of their fields; or the first
/// cause why the piece is no struct.
pub(crate) fn map_source<'b>(
    fields: &Fields<'b>,
    piece: Piece<'b>,
) -> Result<(Source<'b>, bool), Why>
    requires { IsNumbered fields.now.acc.now piece }
    ensures answers { AreNamesApart fields.now.def.now.fields → (t : Data) → StandsFor fields.now.acc.now piece.entry t → AnswersFound fields.now.acc.now S.Map fields.now.def.now.fields t result }
    ensures sourced { IfOk result (λ x. IsSourced fields.now.acc.now x.0) }
    ensures told { IfOk result (λ x. x.1 ≡ true → IsSurveyed fields.now.acc.now fields.now.def.now.fields x.0) }
{
    let Some(entries) = entries(fields.acc, &piece) else {
        return Err(Why::Kind);
    };
    let (notes, told) = note_entries(fields, entries);
    match notes.first_cause(fields.def.fields.as_slice(), false, false) {
        Some(why) => Err(why),
        None => Ok((Source::Map(piece), told)),
    }
}
