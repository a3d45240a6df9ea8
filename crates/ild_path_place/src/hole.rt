//! The hole that is left in the tuple around a part.
ghost use Rattle.std.specs.Prelude.{◌≡◌, false};
ghost use Rattle.ild_path_place.specs.Holes.{VerbHole};
ghost use Rattle.ild_schema.specs.Slots.{form_of};
ghost use Rattle.ild_schema.specs.Value.{Value};
ghost use Rattle.ild_typed.specs.Judged.{is_hole};
ghost use Rattle.ild_view.specs.View.{IsView, slot_of, table_of};

use crate::verb::Verb;
use ild_path_room::{PartMotion, leaves_hole};
use ild_view::View;

/// Whether a holder that has no hole has one with the part that comes to a segment, or without the one that goes.
pub(crate) fn leaves(holder: &View<'_>, segment: &str, verb: Verb) -> bool
    ensures { (f : Value) → IsView holder.now f → is_hole (form_of (table_of holder.now) (slot_of holder.now)) f ≡ false
        → VerbHole (table_of holder.now) (slot_of holder.now, f) segment.now verb result }
{
    match verb {
        Verb::Set | Verb::Ins => leaves_hole(holder, segment, PartMotion::Comes),
        Verb::Del => leaves_hole(holder, segment, PartMotion::Goes),
    }
}
