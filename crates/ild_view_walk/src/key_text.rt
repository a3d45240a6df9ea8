//! Whether a text is one of a type in text form (IPLD Schemas, "Map": the keys).
ghost use Rattle.std.specs.Prelude.{◌≡◌, ◌<◌, ◌↔◌, IfOk, length, true};
ghost use Rattle.ild_data.specs.Data as T;
ghost use Rattle.ild_schema.specs.Slots.{plainly};
ghost use Rattle.ild_typed.specs.Fits.{Fits, IsTextOf};
ghost use Rattle.ild_typed.specs.Layers.{RepresentsSome};
ghost use Rattle.ild_view_walk.specs.Checks.{KeyChecks};

use crate::fault::ViewErr;
use crate::refusal::key_refusal;
use crate::stack::all_open;
use crate::walk::check_piece;
use ild_cbor::Piece;
use ild_layer_parts::{is_leaf, value_part};
use ild_layer_places::Way;
use ild_schema::{Accepted, Slot, TypeNo};
use std::alloc::{AllocError, Global};

/// How many levels are tried before a list of pieces is made.
const FEW_LEVELS: u32 = 96;

/// Whether a text represents a value of a type that nests at most so many levels.
pub fn fits_text(
    alloc: Global,
    acc: &Accepted,
    ty: TypeNo,
    text: &str,
    room: u32,
) -> Result<bool, AllocError>
    requires { ty.0 < length acc.now }
    ensures { IfOk result (λ b. (b ≡ true) ↔ RepresentsSome (Fits acc.now room) acc.now (plainly ty) (T.text text.now)) }
{
    acc.recall();
    match check_key(alloc, acc, ty, text, room) {
        Ok(()) => Ok(true),
        Err(ViewErr::Shape { .. }) => Ok(false),
        Err(ViewErr::Memory) => Err(AllocError),
    }
}

/// Whether a text fits as the key of an entry, or what is told of the key: `Depth` where the walk of it wants room, and else
/// `Member`.
pub fn check_key(
    alloc: Global,
    acc: &Accepted,
    ty: TypeNo,
    text: &str,
    room: u32,
) -> Result<(), ViewErr>
    requires { ty.0 < length acc.now }
    ensures { KeyChecks acc.now room ty text.now result }
{
    acc.recall();
    let slot = Slot {
        ty,
        nullable: false,
    };
    let piece = Piece::Text(text);
    if is_leaf(acc, slot, &piece) {
        return Ok(());
    }
    match check_piece(alloc, acc, slot, &piece, room) {
        Ok(()) => Ok(()),
        Err(fault) => Err(key_refusal(ty, fault)),
    }
}

/// Whether a text represents a value of a type, however deep it nests. No more levels of calls are taken for it than a few: the
/// types of a schema can nest a text in others as often as there are types.
pub fn is_text(alloc: Global, acc: &Accepted, ty: TypeNo, text: &str) -> Result<bool, AllocError>
    requires { ty.0 < length acc.now }
    ensures { IfOk result (λ b. (b ≡ true) ↔ IsTextOf acc.now ty text.now) }
{
    if fits_text(alloc, acc, ty, text, FEW_LEVELS)? {
        return Ok(true);
    }
    let slot = Slot {
        ty,
        nullable: false,
    };
    let mut todo = Vec::new(alloc);
    todo.push(value_part(slot, Piece::Text(text), Way::Here))?;
    all_open(alloc, acc, todo)
}
