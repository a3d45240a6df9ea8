//! How many entries a map has, by its form.
ghost use Rattle.std.specs.Prelude.{◌≡◌, ◌<◌, List, Some, false, length, ℕ};
ghost use Rattle.ild_cbor.specs.Scalar.{count_of};
ghost use Rattle.ild_data.specs.Data.{Data};
ghost use Rattle.ild_view_entries.specs.Forms.{FormCount, MapDelims, ShowsMap};
ghost use Rattle.ild_layer_piece.specs.Pieces.{StandsFor};
ghost use Rattle.ild_schema.specs.declared.row.Row.{Row};
ghost use Rattle.ild_typed.specs.Strings.{stringpairs};
ghost use Rattle.ild_union.specs.Forms.{passes_over};

use ild_cbor::Piece;
use ild_layer_piece::text;
use ild_schema::MapForm;
use ild_text::pairs;

/// How many parts a list or a map has, or `None` where the piece is something else. No entry of the piece is passed over.
pub fn parts_count(piece: &Piece<'_>) -> Option<u64>
    ensures { (rows : List Row) (t : Data) → passes_over piece.now ≡ false → StandsFor rows piece.now t → result ≡ count_of t }
{
    match piece {
        Piece::Node(node) => node.count(),
        Piece::Text(_) | Piece::Bytes(_) | Piece::Inline(_, _) => None,
    }
}

// How many pairs a text is.
fn text_count<'b>(piece: &Piece<'b>, inner: &'b str, entry: &'b str) -> Option<u64>
    requires inner_some { 0 < length inner.now }
    requires entry_some { 0 < length entry.now }
    ensures { (rows : List Row) (es : List (List ℕ × Data)) (t : Data) → StandsFor rows piece.now t → stringpairs inner.now entry.now es ≡ Some t → result ≡ Some (length es) }
{
    match text(piece) {
        Some(whole) => match pairs(whole, inner, entry) {
            Ok(split) => Some(split.len() as u64),
            Err(_) => None,
        },
        None => None,
    }
}

/// How many entries a map of a form has, where no entry of the piece is passed over. Of a HAMT they aren't counted: the answer
/// is `None`.
pub fn form_count<'b>(form: &'b MapForm, piece: &Piece<'b>) -> Option<u64>
    requires { MapDelims form.now }
    ensures { (rows : List Row) (t : Data) (es : List (List ℕ × Data)) → passes_over piece.now ≡ false → StandsFor rows piece.now t → ShowsMap form.now es t → FormCount form.now es result }
{
    match form {
        MapForm::Map => parts_count(piece),
        MapForm::ListPairs => parts_count(piece),
        MapForm::StringPairs(inner, entry) => { text_count(piece, inner.as_str(), entry.as_str()) }
        MapForm::Hamt(_) => None,
    }
}
