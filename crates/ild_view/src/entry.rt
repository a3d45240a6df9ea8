//! The entries of maps.
ghost use Rattle.ild_schema.specs.Value.{Value};
ghost use Rattle.ild_typed.specs.At.{seen};

use crate::body::Body;
use crate::form::ANYTHING;
use crate::view::View;
use ild_schema::TypeDef;
use ild_view_entries::{form_entry, map_entry};

impl<'b> View<'b> {
    ghost use Rattle.ild_view.specs.Parts.{HandsOut, entry_at};
    ghost use Rattle.ild_view.specs.View.{IsView, slot_of, table_of};

    /// The value at a key of a map, or `None` where the key is absent, where the value is no map, and at the root of a HAMT. An
    /// Any is what its data are, and null may stand in it.
    pub fn entry(&self, key: &str) -> Option<View<'b>>
        ensures { (f : Value) → IsView self.now f → HandsOut (table_of self.now) (entry_at (seen (table_of self.now) (slot_of self.now, f)) key.now) result }
    {
        self.acc.recall();
        if self.is_null_there() {
            return None;
        }
        let Body::Held(piece) = self.body else {
            return None;
        };
        match self.def() {
            TypeDef::Map { value, form, .. } => match form_entry(self.acc, form, &piece, key) {
                Some(part) => Some(self.placed(*value, Body::Held(part))),
                None => None,
            },
            TypeDef::Any => match map_entry(self.acc, &piece, key) {
                Some(part) => Some(self.placed(ANYTHING, Body::Held(part))),
                None => None,
            },
            _ => None,
        }
    }
}
