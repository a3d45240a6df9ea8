//! The parts of a piece that are still to be opened, in a list of their own: no call stands inside another for each level.
ghost use Rattle.std.specs.Prelude.{◌≡◌, ◌↔◌, List, IfOk, OnOk, true};
ghost use Rattle.std.specs.List.{AllByRecursion};
ghost use Rattle.ild_layer_piece.specs.Pieces.{IsNumbered};
ghost use Rattle.ild_schema.specs.declared.row.Row.{Row};
ghost use Rattle.ild_typed.specs.Spots.{Spot};
ghost use Rattle.ild_layer_parts.specs.Part.{IsSpotted};
ghost use Rattle.ild_layer_parts.specs.Parts.{HasLeft};
ghost use Rattle.ild_layer_parts.specs.Ready.{AreReady, IsIn, IsInlined, IsReady};
ghost use Rattle.ild_view_walk.specs.inside.Stacked.{Adds, PartsAreAt, IsPlain, IsShown, Spreads};

use crate::opening::Stop;
use crate::walk::open_piece;
use ild_layer_parts::{Part, Parts};
use ild_layer_piece::is_null_there;
use ild_schema::Accepted;
use std::alloc::{AllocError, Global};

// More pieces than a run could open: it opens none twice, and a text has few parts.
const MOST_PIECES: u64 = u64::MAX;

// Adds the parts of which something is to be checked.
fn push_parts<'b>(parts: Parts<'b>, todo: &mut Vec<Part<'b>>) -> Result<(), AllocError>
    ensures adds { OnOk result ((rows : List Row) (ps : List Spot) → HasLeft rows parts.entry ps → AreReady rows parts.entry → Adds rows ps todo.old.items todo.new.items) }
    ensures ready { OnOk result ((rows : List Row) → AreReady rows parts.entry → AllByRecursion (IsReady rows) todo.old.items → AllByRecursion (IsReady rows) todo.new.items) }
{
    let mut left = parts;
    while let Some((part, behind)) = left.split_first() {
        if let Some(part) = part {
            todo.push(part)?;
        }
        left = behind;
    }
    Ok(())
}

// Opens a piece and leaves its parts in its place, or answers false where it is refused.
fn open_into<'b>(
    alloc: Global,
    acc: &'b Accepted,
    part: Part<'b>,
    todo: &mut Vec<Part<'b>>,
) -> Result<bool, AllocError>
    requires within { IsIn acc.now part.slot }
    requires numbered { IsNumbered acc.now part.piece }
    requires inlined { IsInlined acc.now part.slot part.piece }
    ensures ready { OnOk result (AllByRecursion (IsReady acc.now) todo.old.items → AllByRecursion (IsReady acc.now) todo.new.items) }
    ensures spreads { IfOk result (λ b. (p : Spot) → IsSpotted acc.now part.entry p → IsPlain acc.now p → Spreads acc.now p todo.old.items todo.new.items b) }
{
    acc.recall();
    if is_null_there(part.slot, &part.piece) {
        return Ok(true);
    }
    match open_piece(alloc, acc, part.slot, &part.piece, u32::MAX) {
        Ok(None) => Ok(true),
        Ok(Some(opening)) => {
            push_parts(opening.parts, todo)?;
            Ok(true)
        }
        Err(Stop::Why(_)) => Ok(false),
        Err(Stop::Memory) => Err(AllocError),
    }
}

/// Whether all these pieces are those of values, and theirs too. Want of memory is told as well where so many pieces would be
/// opened as no run could open.
pub(crate) fn all_open<'b>(
    alloc: Global,
    acc: &'b Accepted,
    todo: Vec<Part<'b>>,
) -> Result<bool, AllocError>
    requires { AllByRecursion (IsReady acc.now) todo.items }
    ensures { IfOk result (λ b. (ps : List Spot) → PartsAreAt acc.now todo.entry.items ps → AllByRecursion (IsPlain acc.now) ps → (b ≡ true) ↔ AllByRecursion (IsShown acc.now) ps) }
{
    let mut left = todo;
    for _ in 0..MOST_PIECES {
        let Some(part) = left.pop() else {
            return Ok(true);
        };
        if !open_into(alloc, acc, part, &mut left)? {
            return Ok(false);
        }
    }
    Err(AllocError)
}
