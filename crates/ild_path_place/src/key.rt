//! What may be a key of a HAMT.
ghost use Rattle.std.specs.Prelude.{◌≡◌, ◌<◌, IfOk, Some, length};
ghost use Rattle.ild_path_place.specs.inside.Keys.{FitsAs, IsKeyType};
ghost use Rattle.ild_schema.specs.Slots.{form_of};
ghost use Rattle.ild_schema.specs.Table.{IsWithin};
ghost use Rattle.ild_view.specs.View.{slot_of, table_of};

use ild_schema::{Accepted, Slot, TypeDef, TypeNo};
use ild_view::View;
use ild_view_walk::is_text;
use std::alloc::{AllocError, Global};

/// What the table says of a slot's type, copies followed.
pub(crate) fn form(acc: &Accepted, slot: Slot) -> &TypeDef
    requires { slot.ty.0 < length acc.now }
    ensures form { form_of acc.now slot ≡ Some result.now }
    ensures within { IsWithin (length acc.now) result.now }
{
    acc.def(acc.base(slot.ty))
}

// The type of the keys of the map at a view.
fn key_type(acc: &Accepted, view: &View<'_>) -> Option<TypeNo>
    requires { table_of view.now ≡ acc.now }
    ensures { IsKeyType acc.now (form_of acc.now (slot_of view.now)) result }
{
    match form(acc, view.slot()) {
        TypeDef::Map { key, .. } => Some(*key),
        _ => None,
    }
}

/// Whether a segment is a key that is there, or a text of the type of a HAMT's keys.
pub(crate) fn fits_key(
    alloc: Global,
    acc: &Accepted,
    hamt: &View<'_>,
    there: bool,
    segment: &str,
) -> Result<bool, AllocError>
    requires { table_of hamt.now ≡ acc.now }
    ensures { IfOk result (FitsAs acc.now (form_of acc.now (slot_of hamt.now)) there segment.now) }
{
    if there {
        return Ok(true);
    }
    match key_type(acc, hamt) {
        Some(key) => is_text(alloc, acc, key, segment),
        None => Ok(true),
    }
}
