//! Entries of maps in a block.
ghost use Rattle.std.specs.Prelude.{◌≡◌, List, Option, is_some, option_and_then};
ghost use Rattle.ild_splice_changes.specs.Differences.{at_key};
ghost use Rattle.ild_data.specs.Data.{Data};
ghost use Rattle.ild_data.specs.Key.{value_at};
ghost use Rattle.ild_path_last.specs.Change.{IsShown, located};
ghost use Rattle.ild_layer_piece.specs.Pieces.{IsNumbered, StandsFor};
ghost use Rattle.ild_typed.specs.Strings.{members_in};

use crate::between::entry_change;
use crate::change::LastChange;
use ild_cbor::Piece;
use ild_layer_piece::entry;
use ild_schema::Accepted;

// Whether there is an entry at a key.
fn has_entry(acc: &Accepted, piece: &Piece<'_>, key: &str) -> bool
    requires { IsNumbered acc.now piece.now }
    ensures { (t : Data) → StandsFor acc.now piece.now t → result ≡ is_some (option_and_then (value_at key.now) (members_in t)) }
{
    match entry(acc, piece, key) {
        Some(_) => true,
        None => false,
    }
}

/// The change of a map's entry at a key.
pub(crate) fn key_change<'a>(
    acc: &Accepted,
    piece: &Piece<'_>,
    key: &'a str,
    after: bool,
) -> LastChange<'a>
    requires { IsNumbered acc.now piece.now }
    ensures { (t : Data) (d x u : Option Data) → StandsFor acc.now piece.now t → after ≡ is_some d → IsShown d x
        → at_key key.now (option_and_then (value_at key.now) (members_in t)) d ≡ located result x u }
{
    entry_change(key, has_entry(acc, piece, key), after)
}
