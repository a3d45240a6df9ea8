//! Holes: an absent field of a tuple before a present one.
ghost use Rattle.std.specs.Prelude.{◌≡◌, ◌<◌, Some, length};
ghost use Rattle.ild_schema.specs.Value.{optionals_list};
ghost use Rattle.ild_schema.specs.ValueSeen.{value_of};
ghost use Rattle.ild_typed.specs.Judged.{has_hole, hole_in, is_hole};

use crate::form::form_of;
use crate::leaf::has_leaves;
use crate::parts::{field_at, part_at, places};
use ild_schema::{Accepted, Slot, StructForm, TypeDef, Val, ValFields};

// Whether a field that is left out stands before one that is not.
fn leaves_hole(fields: &ValFields) -> bool
    ensures { result ≡ hole_in fields.now }
{
    let mut absent = false;
    for i in 0..fields.len() {
        match field_at(fields, i) {
            Some(_) => {
                if absent {
                    return true;
                }
            }
            None => absent = true,
        }
    }
    false
}

// Whether the layer is a tuple with a hole.
fn is_hole(def: &TypeDef, val: &Val) -> bool
    ensures { result ≡ is_hole (Some def.now) (value_of val.now) }
{
    match (def, val) {
        (TypeDef::Struct(s), Val::Struct(fields)) => match s.form {
            StructForm::Tuple => leaves_hole(fields),
            _ => false,
        },
        _ => false,
    }
}

/// Whether a tuple somewhere in the value has a hole.
#[cycle(hole)]
pub(crate) fn has_hole(acc: &Accepted, slot: Slot, val: &Val) -> bool
    requires { slot.ty.0 < length acc.now }
    ensures { result ≡ has_hole acc.now slot (value_of val.now) }
{
    let def = form_of(acc, slot);
    if is_hole(def, val) {
        return true;
    }
    if has_leaves(acc, def) {
        return false;
    }
    for i in 0..places(val) {
        if let Some((slot, part)) = part_at(def, val, i) {
            if has_hole(acc, slot, part) {
                return true;
            }
        }
    }
    false
}
