//! The entries of a map in one pass.
ghost use Rattle.std.specs.Prelude.{◌<◌, IfSome, List, ℕ};
ghost use Rattle.std.specs.Iterator.{at_most};
ghost use Rattle.ild_view_entries.specs.Left.{most_left};
ghost use Rattle.ild_schema.specs.Value.{Value};
ghost use Rattle.ild_typed.specs.At.{InSlot, seen};
ghost use Rattle.ild_view.specs.Left.{HasEntries, SomeEntries};

use crate::body::Body;
use crate::entries::ViewEntries;
use crate::form::ANYTHING;
use crate::view::View;
use ild_schema::TypeDef;
use ild_view_entries::{EntriesLeft, form_entries, map_entries};

impl<'b> ViewEntries<'b> {
    ghost use Rattle.ild_view.specs.Iterates.{EntryFirst};

    // The first entry that is left, and those behind it.
    fn first(&self) -> Option<(&'b str, View<'b>, EntriesLeft<'b>)>
        ensures step { (qs : List (List ℕ × InSlot)) → HasEntries self.now.acc.now self.now.slot self.now.rest qs → EntryFirst self.now.acc.now self.now.slot qs result }
        ensures fewer { IfSome result (λ r. most_left r.2 < most_left self.now.rest) }
        ensures some { IfSome result (λ r. ∥ SomeEntries self.now.acc.now self.now.slot r.2 ∥₁) }
    {
        match self.rest.split_first() {
            Some((key, piece, left)) => {
                let view = View {
                    acc: self.acc,
                    slot: self.slot,
                    body: Body::Held(piece),
                };
                Some((key, view, left))
            }
            None => None,
        }
    }
}

impl<'b> Iterator for ViewEntries<'b> {
    ghost use Rattle.ild_view.specs.Iterates.{EntriesGive};

    type Item = (&'b str, View<'b>);

    ghost next_gives = { EntriesGive };

    ghost remaining = { λ s. at_most (most_left s.rest) };

    fn next(&mut self) -> Option<(&'b str, View<'b>)> {
        match self.first() {
            Some((key, view, rest)) => {
                *self = ViewEntries {
                    acc: self.acc,
                    slot: self.slot,
                    rest,
                };
                Some((key, view))
            }
            None => None,
        }
    }
}

impl<'b> View<'b> {
    ghost use Rattle.ild_view.specs.Iterates.{FindsEntries};
    ghost use Rattle.ild_view.specs.Ordered.{entries_in};
    ghost use Rattle.ild_view.specs.View.{IsView, slot_of, table_of};

    /// The entries of a map in the order of the block, each as its key and a view of its value, or `None` where the value is no
    /// map, and at the root of a HAMT. An Any is what its data are, and null may stand in it.
    pub fn entries(&self) -> Option<ViewEntries<'b>>
        ensures { (f : Value) → IsView self.now f → FindsEntries (table_of self.now) (entries_in (seen (table_of self.now) (slot_of self.now, f))) result }
    {
        self.acc.recall();
        if self.is_null_there() {
            return None;
        }
        let Body::Held(piece) = self.body else {
            return None;
        };
        match self.def() {
            TypeDef::Map { value, form, .. } => match form_entries(self.acc, form, &piece) {
                Some(rest) => Some(ViewEntries {
                    acc: self.acc,
                    slot: *value,
                    rest,
                }),
                None => None,
            },
            TypeDef::Any => match map_entries(self.acc, &piece) {
                Some(rest) => Some(ViewEntries {
                    acc: self.acc,
                    slot: ANYTHING,
                    rest,
                }),
                None => None,
            },
            _ => None,
        }
    }
}
