//! The fields of structs.
ghost use Rattle.std.specs.Prelude.{◌<◌, List, length};
ghost use Rattle.ild_layer_piece.specs.Pieces.{StandsFor};
ghost use Rattle.ild_schema.specs.declared.row.Row.{Row};
ghost use Rattle.ild_path_steps.specs.Steps.{LeadsField, LiftsField};

use crate::pair::pair_steps;
use crate::steps::PartSteps;
use ild_cbor::Piece;
use ild_schema::{StructDef, StructForm, text_of_field};

/// The steps to the field with a number, which is written before a change and after it. A struct that stands as a text is
/// replaced.
pub(crate) fn struct_steps<'a>(
    def: &'a StructDef,
    number: usize,
    piece: &Piece<'_>,
) -> Option<PartSteps<'a>>
    requires { number < length def.now.fields }
    ensures lifts { (rows : List Row) → LiftsField (StandsFor rows piece.now) def.now number result }
    ensures leads { (rows : List Row) → LeadsField (StandsFor rows piece.now) def.now number result }
{
    let field = &def.fields.as_slice()[number];
    match &def.form {
        StructForm::Map => Some(PartSteps::Entry(text_of_field(field))),
        StructForm::Tuple => Some(PartSteps::Item(number as u64)),
        StructForm::ListPairs => pair_steps(piece, text_of_field(field)),
        StructForm::StringPairs(_, _) | StructForm::StringJoin(_) => Some(PartSteps::Whole),
    }
}
