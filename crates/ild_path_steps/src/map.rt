//! The entries of maps.
ghost use Rattle.std.specs.Prelude.{List};
ghost use Rattle.ild_layer_piece.specs.Pieces.{StandsFor};
ghost use Rattle.ild_schema.specs.declared.row.Row.{Row};
ghost use Rattle.ild_path_steps.specs.Steps.{LeadsEntry, LiftsEntry};

use crate::pair::pair_steps;
use crate::steps::PartSteps;
use ild_cbor::Piece;
use ild_schema::MapForm;

/// The steps to the entry at a key. A HAMT, and a map that stands as a text, is replaced.
pub(crate) fn map_steps<'a>(
    form: &MapForm,
    piece: &Piece<'_>,
    segment: &'a str,
) -> Option<PartSteps<'a>>
    ensures lifts { (rows : List Row) → LiftsEntry (StandsFor rows piece.now) form.now segment.now result }
    ensures leads { (rows : List Row) → LeadsEntry (StandsFor rows piece.now) form.now segment.now result }
{
    match form {
        MapForm::Map => Some(PartSteps::Entry(segment)),
        MapForm::ListPairs => pair_steps(piece, segment),
        MapForm::StringPairs(_, _) | MapForm::Hamt(_) => Some(PartSteps::Whole),
    }
}
