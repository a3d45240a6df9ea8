//! The fields and members of a type by their names, and fields that are left out.
ghost use Rattle.std.specs.Prelude.{◌≡◌, ◌<◌, ◌≤◌, ◌⊎◌, IfErr, IfOk, List, MatchOption, None, Some, is_some, length, true};
ghost use Rattle.ild_value_meaning.specs.Meant.{of_scalar};
ghost use Rattle.ild_value_meaning.specs.MeantRead.{or_implicit};
ghost use Rattle.ild_value_meaning.specs.Names.{are_named, slot_named};
ghost use Rattle.ild_schema.specs.Slots.{form_of};
ghost use Rattle.ild_schema.specs.ValueSeen.{optional_of, value_of};
ghost use Rattle.ild_schema.specs.declared.def.TypeDef.TheVariants as T;
ghost use Rattle.ild_typed.specs.Segment.{member_named};
ghost use Rattle.ild_typed.specs.StructWhy.{must_stand};
ghost use Rattle.ild_value.specs.inside.Parts.{IsMemberNamed};

use crate::{ShownErr, ShownRule};
use ild_data::Entries;
use ild_schema::{Accepted, Field, Scalar, Slot, StructDef, TypeNo, UnionDef, Val};
use std::alloc::AllocError;

// Whether a name is that of a field.
fn is_named(acc: &Accepted, slot: Slot, def: &StructDef, name: &str) -> bool
    requires there { slot.ty.0 < length acc.now }
    requires form { form_of acc.now slot ≡ Some (T.Struct def.now) }
    ensures { result ≡ is_some (slot_named name.now def.now.fields) }
{
    match acc.part_named(acc.base(slot.ty), name) {
        Some(_) => true,
        None => false,
    }
}

/// Whether each key is the name of a field.
pub(crate) fn are_named(acc: &Accepted, slot: Slot, def: &StructDef, entries: &Entries) -> bool
    requires there { slot.ty.0 < length acc.now }
    requires form { form_of acc.now slot ≡ Some (T.Struct def.now) }
    ensures { result ≡ are_named def.now.fields entries.now }
{
    for pair in entries.as_slice() {
        if !is_named(acc, slot, def, pair.0.as_str()) {
            return false;
        }
    }
    true
}

/// The number of the member of a union that has a name.
pub(crate) fn member_named(acc: &Accepted, slot: Slot, def: &UnionDef, name: &str) -> Option<usize>
    requires there { slot.ty.0 < length acc.now }
    requires form { form_of acc.now slot ≡ Some (T.Union def.now) }
    ensures { MatchOption result (member_named name.now def.now.members ≡ None) (IsMemberNamed name.now def.now.members) }
{
    acc.part_named(acc.base(slot.ty), name)
}

// The value of a field that is left out.
fn implicit_value(scalar: &Scalar) -> Result<Val, AllocError>
    ensures { IfOk result (λ v. value_of v ≡ of_scalar scalar.now) }
{
    match scalar {
        Scalar::Bool(b) => Ok(Val::Bool(*b)),
        Scalar::Int(n) => Ok(Val::Int(*n)),
        Scalar::Text(text) => Ok(Val::Text(text.copy()?)),
    }
}

/// What a field of a struct's type has where it is left out: its implicit value, or nothing where it is optional.
pub(crate) fn left_out(ty: TypeNo, field: &Field) -> Result<Option<Val>, ShownErr>
    ensures ok { IfOk result (λ o. or_implicit field.now.implicit field.now.optional ≡ Some (optional_of o)) }
    ensures err { IfErr result (λ e. (e ≡ ShownErr.Memory) ⊎ ((e ≡ ShownErr.Mismatch ty ShownRule.Missing) × (must_stand field.now ≡ true))) }
{
    match &field.implicit {
        Some(scalar) => Ok(Some(implicit_value(scalar)?)),
        None => {
            if field.optional {
                Ok(None)
            } else {
                Err(ShownErr::Mismatch {
                    ty,
                    rule: ShownRule::Missing,
                })
            }
        }
    }
}
