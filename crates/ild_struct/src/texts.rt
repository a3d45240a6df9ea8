//! Structs as texts.
ghost use Rattle.std.specs.Prelude.{◌≡◌, ◌<◌, ℕ, List, IfOk, length, option_map};
ghost use Rattle.ild_data.specs.Data.{Data};
ghost use Rattle.ild_data.specs.Key.{value_at};
ghost use Rattle.ild_layer_piece.specs.Pieces.{StandsFor};
ghost use Rattle.ild_schema.specs.Clear.{AreNamesApart};
ghost use Rattle.ild_schema.specs.declared.def.Field.{Field as Schema};
ghost use Rattle.ild_schema.specs.declared.def.StructForm.TheVariants as S;
ghost use Rattle.ild_schema.specs.declared.row.Row.{Row};
ghost use Rattle.ild_text.specs.Parts.{pairs_in};
ghost use Rattle.ild_struct.specs.inside.Reading.{FormIsRead};
ghost use Rattle.ild_struct.specs.Source.{IsSourced};

use crate::source::Source;
use ild_cbor::{Piece, Why};
use ild_layer_fields::{Fields, note_texts};
use ild_layer_piece::text;
use ild_text::{PairParts, join_parts, pairs};

/// A text of pairs in which the fields are looked up, or the first cause why the piece is no struct.
pub(crate) fn stringpairs_source<'b>(
    fields: &Fields<'b>,
    inner: &'b str,
    entry: &'b str,
    piece: &Piece<'b>,
) -> Result<Source<'b>, Why>
    requires inner_some { 0 < length inner.now }
    requires entry_some { 0 < length entry.now }
    ensures answers { AreNamesApart fields.now.def.now.fields → (rows : List Row) (t : Data) → StandsFor rows piece.now t
        → FormIsRead rows (S.StringPairs inner.now entry.now) fields.now.def.now.fields t result }
    ensures sourced { (rows : List Row) → IfOk result (IsSourced rows) }
{
    let Some(text) = text(piece) else {
        return Err(Why::Kind);
    };
    let split = match pairs(text, inner, entry) {
        Ok(split) => split,
        Err(_) => return Err(Why::Delimiter),
    };
    match note_texts(fields, split).first_cause(fields.def.fields.as_slice(), false, true) {
        Some(why) => Err(why),
        None => Ok(Source::StringPairs(split)),
    }
}

/// A text of parts in which the fields are looked up, or the first cause why the piece is no struct of so many fields.
pub(crate) fn stringjoin_source<'b>(
    delim: &'b str,
    count: usize,
    piece: &Piece<'b>,
) -> Result<Source<'b>, Why>
    requires { 0 < length delim.now }
    ensures answers { (rows : List Row) (fields : List Schema) (t : Data) → count ≡ length fields → StandsFor rows piece.now t → FormIsRead rows (S.StringJoin delim.now) fields t result }
    ensures sourced { (rows : List Row) → IfOk result (IsSourced rows) }
{
    let Some(text) = text(piece) else {
        return Err(Why::Kind);
    };
    match join_parts(text, delim, count) {
        Ok(split) => Ok(Source::StringJoin(split)),
        Err(_) => Err(Why::Delimiter),
    }
}

/// The value of a name among the pairs of a text.
pub(crate) fn text_value<'b>(split: PairParts<'b>, key: &str) -> Option<&'b str>
    ensures { option_map (λ s. s.now) result ≡ value_at key.now (pairs_in split.entry) }
{
    let mut left = split;
    while let Some(((name, value), behind)) = left.split_first() {
        if key == name {
            return Some(value);
        }
        left = behind;
    }
    None
}
