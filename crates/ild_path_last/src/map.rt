//! The entries of maps.
ghost use Rattle.ild_path_last.specs.Change.{ChangesEntry};
ghost use Rattle.ild_layer_piece.specs.Pieces.{IsNumbered, StandsFor};

use crate::change::LastChange;
use crate::keys::key_change;
use crate::seat::key_pair_change;
use ild_cbor::Piece;
use ild_schema::{Accepted, MapForm};

/// The change of the entry at a key. A HAMT, and a map that stands as a text, is replaced.
pub(crate) fn map_change<'a>(
    acc: &Accepted,
    form: &MapForm,
    piece: &Piece<'_>,
    segment: &'a str,
    after: bool,
) -> LastChange<'a>
    requires { IsNumbered acc.now piece.now }
    ensures { ChangesEntry (StandsFor acc.now piece.now) form.now segment.now after result }
{
    match form {
        MapForm::Map => key_change(acc, piece, segment, after),
        MapForm::ListPairs => key_pair_change(piece, segment, after),
        MapForm::StringPairs(_, _) | MapForm::Hamt(_) => LastChange::Whole,
    }
}
