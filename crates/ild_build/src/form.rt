//! What the schema says of a slot's type.
ghost use Rattle.std.specs.Prelude.{◌≡◌, ◌<◌, Some, length};
ghost use Rattle.ild_schema.specs.Slots.{form_of};
ghost use Rattle.ild_schema.specs.Table.{IsWithin};

use ild_schema::{Accepted, Slot, TypeDef};

/// What the schema says of a slot's type, copies followed.
pub fn form_of(acc: &Accepted, slot: Slot) -> &TypeDef
    requires { slot.ty.0 < length acc.now }
    ensures same { form_of acc.now slot ≡ Some result.now }
    ensures within { IsWithin (length acc.now) result.now }
{
    acc.def(acc.base(slot.ty))
}
