//! What is left of the entries of a map, and the slot of their values.
ghost use Rattle.std.specs.Prelude.{◌≡◌, ◌<◌, length, true};
ghost use Rattle.ild_view.specs.Left.{SomeEntries};
ghost use Rattle.ild_view.specs.Safe.{is_safe};

use ild_schema::{Accepted, Slot};
use ild_view_entries::EntriesLeft;

/// An iterator over the entries of a map, each as its key and a view of its value, which walks the map once.
#[derive(Clone, Copy)]
pub struct ViewEntries<'b> {
    pub(crate) acc: &'b Accepted,
    pub(crate) slot: Slot,
    pub(crate) rest: EntriesLeft<'b>,
    ghost within: { slot.ty.0 < length acc.now },
    ghost safe: { is_safe acc.now slot ≡ true },
    ghost stands: { ∥ SomeEntries acc.now slot rest ∥₁ },
}
