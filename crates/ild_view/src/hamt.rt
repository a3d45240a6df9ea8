//! Roots of HAMTs.
ghost use Rattle.std.specs.Prelude.{◌≡◌, List, true};
ghost use Rattle.ild_data.specs.Data.{Data};
ghost use Rattle.ild_data.specs.Trie.{TrieSlot};
ghost use Rattle.ild_schema.specs.Value.{Value};
ghost use Rattle.ild_schema.specs.declared.row.Row.{Row};
ghost use Rattle.ild_typed.specs.Node.{IsRoot};
ghost use Rattle.ild_view.specs.Body.{BodyStands, is_free};
ghost use Rattle.ild_view.specs.Roots.{RootIs, root_in};

use crate::body::Body;
use crate::form::hamt_shape;
use crate::view::View;
use ild_cbor::Piece;
use ild_data::HamtShape;
use ild_node_slots::{NodeView, root_of};

// The node of a root.
fn node_of<'b>(body: &Body<'b>, shape: HamtShape) -> Option<NodeView<'b>>
    ensures { (rows : List Row) (slots : List TrieSlot) (t : Data) → is_free body.now ≡ true → BodyStands rows body.now t → IsRoot shape slots t → RootIs (Some shape) (Some t) result }
{
    match body {
        Body::Held(piece) => match piece {
            Piece::Node(node) => match root_of(*node, shape) {
                Ok(view) => Some(view),
                Err(_) => None,
            },
            Piece::Text(_) | Piece::Bytes(_) | Piece::Inline(_, _) => None,
        },
        Body::Implicit(_) => None,
    }
}

impl<'b> View<'b> {
    ghost use Rattle.ild_schema.specs.Slots.{form_of};
    ghost use Rattle.ild_view.specs.Forms.{shape_in};
    ghost use Rattle.ild_view.specs.View.{IsView, slot_of, table_of};

    /// The root node of a map that is a HAMT, or `None` where the value is none.
    pub fn hamt(&self) -> Option<NodeView<'b>>
        ensures { (f : Value) → IsView self.now f → RootIs (shape_in (form_of (table_of self.now) (slot_of self.now))) (root_in f) result }
    {
        self.acc.recall();
        if self.is_null_there() {
            return None;
        }
        match hamt_shape(self.def()) {
            Some(shape) => node_of(&self.body, shape),
            None => None,
        }
    }
}
