//! The room that the holder of the last segment leaves.
ghost use Rattle.std.specs.Option.{ForSome};
ghost use Rattle.std.specs.Prelude.{◌≡◌, ◌≤◌, ◌↔◌, IfOk, length, true};
ghost use Rattle.ild_path_place.specs.Rooms.{HasRoom};
ghost use Rattle.ild_path_room.specs.Room.{FormKeyFits};
ghost use Rattle.ild_schema.specs.Table.{IsWithin};
ghost use Rattle.ild_view.specs.View.{slot_of, table_of};

use crate::key::form;
use ild_path_room::levels;
use ild_schema::{Accepted, TypeDef};
use ild_view::View;
use ild_view_walk::fits_text;
use std::alloc::{AllocError, Global};

/// How many levels a value may nest.
pub(crate) const ROOM: u32 = 96;

// Whether a segment nests at most so many levels as the key of a type: where the type is a map.
fn key_nests(
    alloc: Global,
    acc: &Accepted,
    def: &TypeDef,
    segment: &str,
    room: u32,
) -> Result<bool, AllocError>
    requires { IsWithin (length acc.now) def.now }
    ensures { IfOk result (λ b. (b ≡ true) ↔ FormKeyFits acc.now room def.now segment.now) }
{
    match def {
        TypeDef::Map { key, .. } => fits_text(alloc, acc, *key, segment, room),
        _ => Ok(true),
    }
}

/// How many levels a part may nest at a segment of a holder that may nest so many; `None` where the key at which it would stand is
/// too deep by itself.
pub(crate) fn room_in(
    alloc: Global,
    acc: &Accepted,
    holder: &View<'_>,
    segment: &str,
    room: u32,
) -> Result<Option<u32>, AllocError>
    requires { table_of holder.now ≡ acc.now }
    ensures room { room ≤ 96 → IfOk result (HasRoom acc.now (slot_of holder.now) room segment.now) }
    ensures deep { IfOk result (λ o. ForSome o (λ n. n ≤ 96)) }
{
    let left = room.min(ROOM).saturating_sub(levels(holder));
    if key_nests(alloc, acc, form(acc, holder.slot()), segment, left)? {
        Ok(Some(left))
    } else {
        Ok(None)
    }
}
