//! How many levels a path leaves to the part at its end.
ghost use Rattle.std.specs.Prelude.{◌≡◌, ◌<◌, ◌↔◌, ◌-◌, [], IfOk, Ok, Some, length, true};
ghost use Rattle.ild_path_room.specs.Room.{FormKeyFits, TellsRoom, room_left, LeavesIn, LeavesAt};
ghost use Rattle.ild_schema.specs.Slots.{form_of};
ghost use Rattle.ild_schema.specs.Table.{IsWithin};
ghost use Rattle.ild_schema.specs.Value.{Value};
ghost use Rattle.ild_typed.specs.Fits.{Fits};
ghost use Rattle.ild_view.specs.View.{IsView, slot_of, table_of};

use crate::form::{form_of, levels};
use ild_data::{Path, Txt};
use ild_schema::{Accepted, TypeDef};
use ild_view::View;
use ild_view_walk::fits_text;
use std::alloc::{AllocError, Global};

// Whether a segment nests at most so many levels as the key of a type: where the type is a map.
fn key_fits(
    alloc: Global,
    acc: &Accepted,
    def: &TypeDef,
    segment: &str,
    room: u32,
) -> Result<bool, AllocError>
    requires { IsWithin (length acc.now) def.now }
    ensures { IfOk result (λ b. (b ≡ true) ↔ FormKeyFits acc.now room def.now segment.now) }
{
    match def {
        TypeDef::Map { key, .. } => fits_text(alloc, acc, *key, segment, room),
        _ => Ok(true),
    }
}

// The room that the last holder leaves to a part at a segment, where the key fits in it.
fn last_room(
    alloc: Global,
    view: &View<'_>,
    segment: &str,
    room: u32,
) -> Result<Option<u32>, AllocError>
    ensures { LeavesIn view.now segment.now room result }
{
    let left = room.saturating_sub(levels(view));
    if key_fits(alloc, view.schema(), form_of(view), segment, left)? {
        Ok(Some(left))
    } else {
        Ok(None)
    }
}

// The room at the end of some segments, of which there is one.
fn room_at(
    alloc: Global,
    root: &View<'_>,
    segments: &[Txt],
    limit: u32,
) -> Result<Option<u32>, AllocError>
    ensures { LeavesAt root.now segments.now limit result }
{
    let mut left = segments;
    let mut view = *root;
    let mut room = limit;
    while let Some((segment, behind)) = left.split_first() {
        if behind.is_empty() {
            return last_room(alloc, &view, segment.as_str(), room);
        }
        let Some(part) = view.part(segment.as_str()) else {
            return Ok(None);
        };
        room = room.saturating_sub(levels(&view));
        view = part;
        left = behind;
    }
    Ok(None)
}

/// How many levels a part may nest that is set or inserted at a path, so that the whole value nests no more than a limit; `None`
/// where the key at which it would stand is too deep by itself. It is told by the types of the holders on the path (IPLD Schemas,
/// "Representations"); the new value of a view's whole may nest as much as the limit.
pub fn room_left(
    alloc: Global,
    root: &View<'_>,
    path: &Path,
    limit: u32,
) -> Result<Option<u32>, AllocError>
    ensures whole { path.now ≡ [] → result ≡ Ok (Some limit) }
    ensures room { LeavesAt root.now path.now limit result }
    ensures tells { (f : Value) → IsView root.now f → Fits (table_of root.now) limit (slot_of root.now) f → IfOk result (TellsRoom (table_of root.now) limit (slot_of root.now, f) path.now) }
{
    root.schema().recall();
    let segments = path.as_slice();
    if segments.is_empty() {
        return Ok(Some(limit));
    }
    room_at(alloc, root, segments, limit)
}
