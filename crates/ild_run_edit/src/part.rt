//! The part that an edit brings, judged at its place.
ghost use Rattle.std.specs.Prelude.{◌≡◌, ◌<◌, IfOk, length};
ghost use Rattle.ild_path_place.specs.Tells.{slot_in, table_at};
ghost use Rattle.ild_run_edit.specs.inside.Judges.{IsPartRefusal, TellsAround, first_told};
ghost use Rattle.ild_schema.specs.ValueSeen.{value_of};
ghost use Rattle.ild_typed.specs.Typed.{Typed};

use ild_build::{Judged, judge, represented_text};
use ild_path_around::breaks_around;
use ild_path_place::Place;
use ild_schema::{Accepted, Val};
use ild_script::No;
use std::alloc::{AllocError, Global};

/// How many levels a block nests at most.
const DEEPEST: u32 = 96;

// The first refusal that is told.
fn first_told(
    key: bool,
    hole: bool,
    judged: Option<Judged>,
    around: bool,
    room: Option<u32>,
    exhausted: bool,
) -> Option<No>
    ensures { result ≡ first_told key hole judged around room exhausted }
{
    if !key {
        return Some(No::Mismatch);
    }
    if hole || matches!(judged, Some(Judged::Hole)) {
        return Some(No::Hole);
    }
    if matches!(judged, Some(Judged::Delimiter)) || around {
        return Some(No::Delimiter);
    }
    if room.is_none() || matches!(judged, Some(Judged::Depth)) {
        return Some(No::Depth);
    }
    if exhausted { Some(No::Exhausted) } else { None }
}

// Whether a text around the part breaks a delimiter rule with it.
fn breaks_with(
    alloc: Global,
    place: &Place<'_>,
    acc: &Accepted,
    val: &Val,
) -> Result<bool, AllocError>
    requires { acc.now ≡ table_at place.now }
    ensures { IfOk result (TellsAround place.now (value_of val.now)) }
{
    match represented_text(alloc, acc, place.slot(), val)? {
        Some(text) => breaks_around(alloc, place, Some(text.as_str())),
        None => breaks_around(alloc, place, None),
    }
}

/// Why the part may not come to its place, or `None`: its key is none of the type; the value would have a hole, a text would break a
/// delimiter rule, or it would nest too deep; or the HAMT around it has no trie with the key.
pub(crate) fn part_refusal(
    alloc: Global,
    place: &Place<'_>,
    acc: &Accepted,
    val: &Val,
) -> Result<Option<No>, AllocError>
    requires table { acc.now ≡ table_at place.now }
    requires typed { Typed acc.now (slot_in place.now) (value_of val.now) }
    ensures { IfOk result (IsPartRefusal place.now (value_of val.now)) }
{
    let room = place.room();
    let judged = judge(alloc, acc, place.slot(), val, room.unwrap_or(DEEPEST))?;
    let around = breaks_with(alloc, place, acc, val)?;
    Ok(first_told(
        place.key_fits(),
        place.hole(),
        judged,
        around,
        room,
        place.exhausted(),
    ))
}
