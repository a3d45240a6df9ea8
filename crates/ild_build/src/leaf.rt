//! Types that tell all that is asked of their values: no hole, no delimiter, and no level.
ghost use Rattle.std.specs.Prelude.{◌≡◌, ◌<◌, true, length};
ghost use Rattle.ild_schema.specs.Table.{IsWithin};
ghost use Rattle.ild_schema.specs.Value.{Value};
ghost use Rattle.ild_build.specs.inside.Leaf.{HasLeaves, IsLeaf, is_bare};

use crate::form::form_of;
use crate::parts::element_of;
use ild_schema::{Accepted, Slot, TypeDef};

// Whether values of the type have no parts and take no level: not those of Any, whose data may nest.
fn is_bare(def: &TypeDef) -> bool
    ensures { result ≡ is_bare def.now }
{
    match def {
        TypeDef::Bool | TypeDef::Text | TypeDef::Bytes | TypeDef::Int => true,
        TypeDef::Link(_) | TypeDef::Enum(_) => true,
        _ => false,
    }
}

/// Whether the slot's type is such a one.
pub(crate) fn is_leaf(acc: &Accepted, slot: Slot) -> bool
    requires { slot.ty.0 < length acc.now }
    ensures { result ≡ true → (v : Value) → IsLeaf acc.now slot v }
{
    is_bare(form_of(acc, slot))
}

/// Whether the type is a list whose elements, or a map whose values, are of such a type.
pub(crate) fn has_leaves(acc: &Accepted, def: &TypeDef) -> bool
    requires { IsWithin (length acc.now) def.now }
    ensures { result ≡ true → HasLeaves acc.now def.now }
{
    match element_of(def) {
        Some(slot) => is_leaf(acc, slot),
        None => false,
    }
}
