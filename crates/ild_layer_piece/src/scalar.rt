//! What a piece is by itself.
ghost use Rattle.std.specs.Prelude.{◌≡◌, List, option_map, true, false, ◌↔◌};
ghost use Rattle.ild_cbor.specs.Scalar.{boolean_of, int_of, kind_of};
ghost use Rattle.ild_data.specs.Data.{Data, null};
ghost use Rattle.ild_schema.specs.declared.row.Row.{Row};
ghost use Rattle.ild_typed.specs.Pieces.{is_null_there};
ghost use Rattle.ild_typed.specs.Strings.{bytes_in, text_in};
ghost use Rattle.ild_layer_piece.specs.Pieces.{StandsFor};

use ild_cbor::{Kind, Piece};
use ild_data::Int;
use ild_schema::Slot;

/// The kind of the data.
#[inline(always)]
pub fn kind(piece: &Piece<'_>) -> Kind
    ensures { (rows : List Row) (t : Data) → StandsFor rows piece.now t → result ≡ kind_of t }
{
    match piece {
        Piece::Node(node) => node.kind(),
        Piece::Text(_) => Kind::Text,
        Piece::Bytes(_) => Kind::Bytes,
        Piece::Inline(_, _) => Kind::Map,
    }
}

/// Whether the data are null.
pub fn is_null(piece: &Piece<'_>) -> bool
    ensures { (rows : List Row) (t : Data) → StandsFor rows piece.now t → (result ≡ true) ↔ (t ≡ null) }
{
    kind(piece) == Kind::Null
}

/// Whether the data are null, in a slot that takes it.
pub fn is_null_there(slot: Slot, piece: &Piece<'_>) -> bool
    ensures { (rows : List Row) (t : Data) → StandsFor rows piece.now t → result ≡ is_null_there slot t }
{
    slot.nullable && is_null(piece)
}

/// The truth value, or `None` where the data are of another kind.
pub fn boolean(piece: &Piece<'_>) -> Option<bool>
    ensures { (rows : List Row) (t : Data) → StandsFor rows piece.now t → result ≡ boolean_of t }
{
    match piece {
        Piece::Node(node) => node.boolean(),
        Piece::Text(_) | Piece::Bytes(_) | Piece::Inline(_, _) => None,
    }
}

/// The integer, or `None` where the data are of another kind.
pub fn int(piece: &Piece<'_>) -> Option<Int>
    ensures { (rows : List Row) (t : Data) → StandsFor rows piece.now t → result ≡ int_of t }
{
    match piece {
        Piece::Node(node) => node.int(),
        Piece::Text(_) | Piece::Bytes(_) | Piece::Inline(_, _) => None,
    }
}

/// The text, or `None` where the data are of another kind.
pub fn text<'b>(piece: &Piece<'b>) -> Option<&'b str>
    ensures { (rows : List Row) (t : Data) → StandsFor rows piece.now t → option_map (λ s. s.now) result ≡ text_in t }
{
    match piece {
        Piece::Node(node) => node.text(),
        Piece::Text(text) => Some(*text),
        Piece::Bytes(_) | Piece::Inline(_, _) => None,
    }
}

/// The byte string, or `None` where the data are of another kind.
pub fn bytes<'b>(piece: &Piece<'b>) -> Option<&'b [u8]>
    ensures { (rows : List Row) (t : Data) → StandsFor rows piece.now t → option_map (λ s. s.now) result ≡ bytes_in t }
{
    match piece {
        Piece::Node(node) => node.bytes(),
        Piece::Bytes(bytes) => Some(*bytes),
        Piece::Text(_) | Piece::Inline(_, _) => None,
    }
}
