//! The slot of a map's values.
ghost use Rattle.std.specs.Prelude.{◌≡◌};
ghost use Rattle.ild_path_room.specs.ValueSlot.{IsValueSlot};
ghost use Rattle.ild_schema.specs.Slots.{form_of};
ghost use Rattle.ild_view.specs.View.{slot_of, table_of};

use crate::form::form_of;
use ild_schema::{Accepted, Slot, TypeDef};
use ild_view::View;

/// The slot of the values of a map, by the type of a view of it; none where the type is no map.
pub fn value_slot(acc: &Accepted, view: &View<'_>) -> Option<Slot>
    requires { table_of view.now ≡ acc.now }
    ensures { IsValueSlot acc.now (form_of acc.now (slot_of view.now)) result }
{
    acc.recall();
    match form_of(view) {
        TypeDef::Map { value, .. } => Some(*value),
        _ => None,
    }
}
