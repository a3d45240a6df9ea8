//! Values in blocks of their own.
ghost use Rattle.std.specs.Prelude.{◌≡◌, ◌<◌, length, true};
ghost use Rattle.ild_path_entry.specs.Fronts.{HasFrontOf};
ghost use Rattle.ild_view.specs.Safe.{is_safe};

use ild_node_slots::Spelled;
use ild_schema::{Accepted, Slot};

/// A value that was checked against a slot in a room, spelled by itself. It owns its bytes, and borrows the schema.
#[derive(Drop)]
pub struct Entry<'s> {
    pub(crate) acc: &'s Accepted,
    pub(crate) slot: Slot,
    pub(crate) room: u32,
    pub(crate) item: Spelled,
    ghost within: { slot.ty.0 < length acc.now },
    ghost safe: { is_safe acc.now slot ≡ true },
    ghost stands: { ∥ HasFrontOf acc.now slot room item ∥₁ },
}
