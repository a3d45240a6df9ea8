//! The elements of lists.
ghost use Rattle.std.specs.Prelude.{◌≡◌, IfSome, List, Option, true};
ghost use Rattle.ild_cbor.specs.Span.{item_of};
ghost use Rattle.ild_data.specs.Data.{Data};
ghost use Rattle.ild_layer_piece.specs.Entries.{Found};
ghost use Rattle.ild_schema.specs.Value.{Value};
ghost use Rattle.ild_schema.specs.declared.row.Row.{Row};
ghost use Rattle.ild_typed.specs.At.{seen};
ghost use Rattle.ild_view.specs.Body.{BodyStands, is_free};
ghost use Rattle.ild_view.specs.Itself.{Embodies};

use crate::body::Body;
use crate::form::element_slot;
use crate::view::View;
use ild_cbor::{Node, Piece};

impl<'b> Body<'b> {
    /// An item, where one was found.
    pub(crate) fn of(found: Option<Node<'b>>) -> Option<Body<'b>>
        ensures embodies { (rows : List Row) (o : Option Data) → Found o found.entry → Embodies rows o result }
        ensures free { IfSome result (λ b. is_free b ≡ true) }
    {
        match found {
            Some(node) => Some(Body::Held(Piece::Node(node))),
            None => None,
        }
    }

    /// The item at a place of a list, or `None` past the last, and where it is no list.
    pub(crate) fn item(&self, i: u64) -> Option<Node<'b>>
        ensures { (rows : List Row) (t : Data) → BodyStands rows self.now t → Found (item_of t i) result }
    {
        match self {
            Body::Held(piece) => match piece {
                Piece::Node(node) => node.item(i),
                Piece::Text(_) | Piece::Bytes(_) | Piece::Inline(_, _) => None,
            },
            Body::Implicit(_) => None,
        }
    }
}

impl<'b> View<'b> {
    ghost use Rattle.ild_view.specs.Parts.{HandsOut, element_at};
    ghost use Rattle.ild_view.specs.View.{IsView, slot_of, table_of};

    /// The element of a list at a place, or `None` past the last, and where the value is no list. An Any is what its data are,
    /// and null may stand in it.
    pub fn item(&self, i: u64) -> Option<View<'b>>
        ensures { (f : Value) → IsView self.now f → HandsOut (table_of self.now) (element_at (seen (table_of self.now) (slot_of self.now, f)) i) result }
    {
        self.acc.recall();
        if self.is_null_there() {
            return None;
        }
        match element_slot(self.def()) {
            Some(slot) => match Body::of(self.body.item(i)) {
                Some(body) => Some(self.placed(slot, body)),
                None => None,
            },
            None => None,
        }
    }
}
