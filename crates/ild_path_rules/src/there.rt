//! Whether a part is there.
ghost use Rattle.std.specs.Prelude.{◌≡◌, is_some, option_map};
ghost use Rattle.ild_schema.specs.Value.{Value};
ghost use Rattle.ild_typed.specs.At.{seen};
ghost use Rattle.ild_typed.specs.Segment.{part};
ghost use Rattle.ild_view.specs.View.{IsView, slot_of, table_of};

use ild_schema::Slot;
use ild_view::View;

/// The slot of the part to which a segment leads.
pub(crate) fn slot_there(view: &View<'_>, segment: &str) -> Option<Slot>
    ensures { (f : Value) → IsView view.now f → result ≡ option_map (λ q. q.0) (part (seen (table_of view.now) (slot_of view.now, f)) segment.now) }
{
    match view.part(segment) {
        Some(part) => Some(part.slot()),
        None => None,
    }
}

/// Whether a segment leads to a part.
pub(crate) fn is_there(view: &View<'_>, segment: &str) -> bool
    ensures { (f : Value) → IsView view.now f → result ≡ is_some (part (seen (table_of view.now) (slot_of view.now, f)) segment.now) }
{
    match view.part(segment) {
        Some(_) => true,
        None => false,
    }
}
