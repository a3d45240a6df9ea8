//! Typed views.
ghost use Rattle.std.specs.Prelude.{◌≡◌, ◌<◌, ◌≤◌, length, true};
ghost use Rattle.ild_view.specs.Body.{body_types, is_placed};
ghost use Rattle.ild_view.specs.Front.{BodyHasFront};
ghost use Rattle.ild_view.specs.Safe.{is_safe};

use crate::body::Body;
use ild_schema::{Accepted, Slot};

/// A piece of a block that was checked against a slot, or the implicit value of a field that the block leaves out: it has one
/// front, what the block shows of a value of the slot's type by itself. A view borrows the block and the schema.
#[derive(Clone, Copy)]
pub struct View<'b> {
    pub(crate) acc: &'b Accepted,
    pub(crate) slot: Slot,
    pub(crate) body: Body<'b>,
    ghost within: { slot.ty.0 < length acc.now },
    ghost safe: { is_safe acc.now slot ≡ true },
    ghost numbered: { body_types body ≤ length acc.now },
    ghost placed: { is_placed acc.now slot body ≡ true },
    ghost stands: { ∥ BodyHasFront acc.now slot body ∥₁ },
}
