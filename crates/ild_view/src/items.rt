//! The elements of a list in one pass.
ghost use Rattle.std.specs.Prelude.{◌≡◌, ◌<◌, IfSome, List};
ghost use Rattle.std.specs.Iterator.{at_most};
ghost use Rattle.ild_data.specs.Data.{Data};
ghost use Rattle.ild_layer_piece.specs.Entries.{Lists};
ghost use Rattle.ild_schema.specs.Value.{Value};
ghost use Rattle.ild_schema.specs.declared.row.Row.{Row};
ghost use Rattle.ild_typed.specs.At.{InSlot, seen};
ghost use Rattle.ild_typed.specs.Named.{items_in};
ghost use Rattle.ild_view.specs.Body.{BodyStands};
ghost use Rattle.ild_view.specs.Left.{HasElements, SomeElements};

use crate::body::Body;
use crate::elements::ViewItems;
use crate::form::element_slot;
use crate::view::View;
use ild_cbor::{Items, Piece};
use ild_layer_piece::items;

impl<'b> Body<'b> {
    /// The items of a list in order, or `None` where it is no list.
    pub(crate) fn items(&self) -> Option<Items<'b>>
        ensures { (rows : List Row) (t : Data) → BodyStands rows self.now t → Lists (items_in t) result }
    {
        match self {
            Body::Held(piece) => items(piece),
            Body::Implicit(_) => None,
        }
    }
}

impl<'b> ViewItems<'b> {
    ghost use Rattle.ild_view.specs.Iterates.{ItemFirst};

    // The first element that is left, and those behind it.
    fn first(&self) -> Option<(View<'b>, Items<'b>)>
        ensures step { (qs : List InSlot) → HasElements self.now.acc.now self.now.slot self.now.items qs → ItemFirst self.now.acc.now self.now.slot qs result }
        ensures fewer { IfSome result (λ r. r.1.left < self.now.items.left) }
        ensures some { IfSome result (λ r. ∥ SomeElements self.now.acc.now self.now.slot r.1 ∥₁) }
    {
        let mut left = self.items;
        match left.next() {
            Some(item) => {
                let view = View {
                    acc: self.acc,
                    slot: self.slot,
                    body: Body::Held(Piece::Node(item)),
                };
                Some((view, left))
            }
            None => None,
        }
    }
}

impl<'b> Iterator for ViewItems<'b> {
    ghost use Rattle.ild_view.specs.Iterates.{ItemsGive};

    type Item = View<'b>;

    ghost next_gives = { ItemsGive };

    ghost remaining = { λ s. at_most s.items.left };

    fn next(&mut self) -> Option<View<'b>> {
        match self.first() {
            Some((view, items)) => {
                *self = ViewItems {
                    acc: self.acc,
                    slot: self.slot,
                    items,
                };
                Some(view)
            }
            None => None,
        }
    }
}

impl<'b> View<'b> {
    ghost use Rattle.ild_view.specs.Iterates.{FindsItems};
    ghost use Rattle.ild_view.specs.Ordered.{elements_in};
    ghost use Rattle.ild_view.specs.View.{IsView, slot_of, table_of};

    /// The elements of a list in order, or `None` where the value is no list. An Any is what its data are, and null may stand
    /// in it.
    pub fn items(&self) -> Option<ViewItems<'b>>
        ensures { (f : Value) → IsView self.now f → FindsItems (table_of self.now) (elements_in (seen (table_of self.now) (slot_of self.now, f))) result }
    {
        self.acc.recall();
        if self.is_null_there() {
            return None;
        }
        match element_slot(self.def()) {
            Some(slot) => match self.body.items() {
                Some(items) => Some(ViewItems {
                    acc: self.acc,
                    slot,
                    items,
                }),
                None => None,
            },
            None => None,
        }
    }
}
