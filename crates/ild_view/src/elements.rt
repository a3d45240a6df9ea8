//! What is left of the elements of a list.
ghost use Rattle.std.specs.Prelude.{◌≡◌, ◌<◌, length, true};
ghost use Rattle.ild_view.specs.Left.{SomeElements};
ghost use Rattle.ild_view.specs.Safe.{is_safe};

use ild_cbor::Items;
use ild_schema::{Accepted, Slot};

/// An iterator over the elements of a list, each as a view, which walks the list once.
#[derive(Clone, Copy)]
pub struct ViewItems<'b> {
    pub(crate) acc: &'b Accepted,
    pub(crate) slot: Slot,
    pub(crate) items: Items<'b>,
    ghost within: { slot.ty.0 < length acc.now },
    ghost safe: { is_safe acc.now slot ≡ true },
    ghost stands: { ∥ SomeElements acc.now slot items ∥₁ },
}
