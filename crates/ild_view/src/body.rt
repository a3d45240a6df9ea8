//! What stands for the value of a view.
ghost use Rattle.std.specs.Prelude.{◌≡◌, ◌↔◌, List, option_map, true};
ghost use Rattle.ild_cbor.specs.Scalar.{boolean_of, bytes_of, int_of, link_of, text_of};
ghost use Rattle.ild_data.specs.CidView.{cid_bytes};
ghost use Rattle.ild_data.specs.Data.{Data, null};
ghost use Rattle.ild_schema.specs.declared.row.Row.{Row};
ghost use Rattle.ild_view.specs.Body.{BodyStands};

use ild_cbor::Piece;
use ild_data::{CidRef, Int};
use ild_layer_piece::{boolean, bytes, int, is_null, text};
use ild_schema::Scalar;

/// What stands for a value.
#[derive(Clone, Copy)]
pub(crate) enum Body<'b> {
    /// A piece of the block.
    Held(Piece<'b>),
    /// An implicit value of the schema, which the block leaves out.
    Implicit(&'b Scalar),
}

impl<'b> Body<'b> {
    /// Whether it is null.
    pub(crate) fn is_null(&self) -> bool
        ensures { (rows : List Row) (t : Data) → BodyStands rows self.now t → (result ≡ true) ↔ (t ≡ null) }
    {
        match self {
            Body::Held(piece) => is_null(piece),
            Body::Implicit(_) => false,
        }
    }

    /// The truth value, or `None` where it is something else.
    pub(crate) fn boolean(&self) -> Option<bool>
        ensures { (rows : List Row) (t : Data) → BodyStands rows self.now t → result ≡ boolean_of t }
    {
        match self {
            Body::Held(piece) => boolean(piece),
            Body::Implicit(scalar) => match scalar {
                Scalar::Bool(value) => Some(*value),
                Scalar::Int(_) | Scalar::Text(_) => None,
            },
        }
    }

    /// The integer, or `None` where it is something else.
    pub(crate) fn int(&self) -> Option<Int>
        ensures { (rows : List Row) (t : Data) → BodyStands rows self.now t → result ≡ int_of t }
    {
        match self {
            Body::Held(piece) => int(piece),
            Body::Implicit(scalar) => match scalar {
                Scalar::Int(value) => Some(*value),
                Scalar::Bool(_) | Scalar::Text(_) => None,
            },
        }
    }

    /// The text, or `None` where it is something else.
    pub(crate) fn text(&self) -> Option<&'b str>
        ensures { (rows : List Row) (t : Data) → BodyStands rows self.now t → option_map (λ s. s.now) result ≡ text_of t }
    {
        match self {
            Body::Held(piece) => text(piece),
            Body::Implicit(scalar) => match scalar {
                Scalar::Text(value) => Some(value.as_str()),
                Scalar::Bool(_) | Scalar::Int(_) => None,
            },
        }
    }

    /// The byte string, or `None` where it is something else.
    pub(crate) fn bytes(&self) -> Option<&'b [u8]>
        ensures { (rows : List Row) (t : Data) → BodyStands rows self.now t → option_map (λ s. s.now) result ≡ bytes_of t }
    {
        match self {
            Body::Held(piece) => bytes(piece),
            Body::Implicit(_) => None,
        }
    }

    /// The CID of a link, or `None` where it is something else.
    pub(crate) fn link(&self) -> Option<CidRef<'b>>
        ensures { (rows : List Row) (t : Data) → BodyStands rows self.now t → option_map cid_bytes result ≡ link_of t }
    {
        match self {
            Body::Held(piece) => match piece {
                Piece::Node(node) => node.link(),
                Piece::Text(_) | Piece::Bytes(_) | Piece::Inline(_, _) => None,
            },
            Body::Implicit(_) => None,
        }
    }
}
