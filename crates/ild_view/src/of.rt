//! Views of items that were checked before, and what a view was made of.
ghost use Rattle.std.specs.Prelude.{◌≡◌, ◌<◌, length, option_map, true};
ghost use Rattle.ild_view.specs.Front.{NodeFront};
ghost use Rattle.ild_view.specs.Safe.{is_safe};

use crate::body::Body;
use crate::view::View;
use ild_cbor::{Node, Piece};
use ild_schema::{Accepted, Slot};

impl<'b> View<'b> {
    ghost use Rattle.ild_cbor.specs.declared.piece.Piece.TheVariants as P;
    ghost use Rattle.ild_view.specs.View.{IsViewAt, piece_of, slot_of, table_of};

    /// The view of an item that has a front of a slot. Where null may stand in the slot, it is no value of the slot's type.
    pub fn of(acc: &'b Accepted, slot: Slot, node: Node<'b>) -> View<'b>
        requires within { slot.ty.0 < length acc.now }
        requires safe { is_safe acc.now slot ≡ true }
        requires front { ∥ NodeFront acc.now slot node ∥₁ }
        ensures { IsViewAt acc.now slot (P.Node node.entry) result }
    {
        View {
            acc,
            slot,
            body: Body::Held(Piece::Node(node)),
        }
    }

    /// The schema.
    pub fn schema(&self) -> &'b Accepted
        ensures { result.now ≡ table_of self.now }
    {
        self.acc
    }

    /// The slot.
    pub fn slot(&self) -> Slot
        ensures { result ≡ slot_of self.now }
    {
        self.slot
    }

    /// The piece of the block, or `None` for an implicit value that the block leaves out.
    pub fn piece(&self) -> Option<Piece<'b>>
        ensures { result ≡ piece_of self.now }
    {
        match self.body {
            Body::Held(piece) => Some(piece),
            Body::Implicit(_) => None,
        }
    }
}
