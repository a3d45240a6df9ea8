//! The entries of a map in one pass, by its form.
ghost use Rattle.std.specs.Prelude.{◌≡◌, ◌<◌, List, Some, length, ℕ};
ghost use Rattle.ild_data.specs.Data.{Data};
ghost use Rattle.ild_view_entries.specs.Forms.{MapDelims, ShowsMap};
ghost use Rattle.ild_view_entries.specs.Left.{FindsLeft, FormLeft};
ghost use Rattle.ild_layer_piece.specs.Pieces.{IsNumbered, StandsFor};
ghost use Rattle.ild_schema.specs.declared.row.Row.{Row};
ghost use Rattle.ild_typed.specs.Strings.{listpairs, members_in, stringpairs};

use crate::left::EntriesLeft;
use ild_cbor::Piece;
use ild_layer_piece::{entries, items, text};
use ild_schema::{Accepted, MapForm};
use ild_text::pairs;

/// The entries of a map that stands as a map, or `None` where the piece is no map.
pub fn map_entries<'b>(acc: &'b Accepted, piece: &Piece<'b>) -> Option<EntriesLeft<'b>>
    requires { IsNumbered acc.now piece.now }
    ensures { (t : Data) → StandsFor acc.now piece.now t → FindsLeft (members_in t) result }
{
    match entries(acc, piece) {
        Some(left) => Some(EntriesLeft::Map(left)),
        None => None,
    }
}

// Of one that stands as a list of pairs.
fn listpairs_entries<'b>(piece: &Piece<'b>) -> Option<EntriesLeft<'b>>
    ensures { (rows : List Row) (es : List (List ℕ × Data)) → StandsFor rows piece.now (listpairs es) → FindsLeft (Some es) result }
{
    match items(piece) {
        Some(items) => Some(EntriesLeft::ListPairs(items)),
        None => None,
    }
}

// Of one that stands as the pairs of a text.
fn stringpairs_entries<'b>(
    piece: &Piece<'b>,
    inner: &'b str,
    entry: &'b str,
) -> Option<EntriesLeft<'b>>
    requires inner_some { 0 < length inner.now }
    requires entry_some { 0 < length entry.now }
    ensures { (rows : List Row) (es : List (List ℕ × Data)) (t : Data) → StandsFor rows piece.now t → stringpairs inner.now entry.now es ≡ Some t → FindsLeft (Some es) result }
{
    match text(piece) {
        Some(whole) => match pairs(whole, inner, entry) {
            Ok(split) => Some(EntriesLeft::StringPairs(split)),
            Err(_) => None,
        },
        None => None,
    }
}

/// The entries of a map of a form, in the order of the block. Of a HAMT none are looked for: the answer is `None`.
pub fn form_entries<'b>(
    acc: &'b Accepted,
    form: &'b MapForm,
    piece: &Piece<'b>,
) -> Option<EntriesLeft<'b>>
    requires numbered { IsNumbered acc.now piece.now }
    requires delims { MapDelims form.now }
    ensures { (t : Data) (es : List (List ℕ × Data)) → StandsFor acc.now piece.now t → ShowsMap form.now es t → FormLeft form.now es result }
{
    match form {
        MapForm::Map => map_entries(acc, piece),
        MapForm::ListPairs => listpairs_entries(piece),
        MapForm::StringPairs(inner, entry) => {
            stringpairs_entries(piece, inner.as_str(), entry.as_str())
        }
        MapForm::Hamt(_) => None,
    }
}
