//! Maps as the pairs of a text, and as pairs in a list.
ghost use Rattle.std.specs.Prelude.{◌<◌, ℕ, List, length};
ghost use Rattle.ild_data.specs.Data.{Data};
ghost use Rattle.ild_layer_piece.specs.Pieces.{StandsFor};
ghost use Rattle.ild_schema.specs.Slots.{plainly};
ghost use Rattle.ild_schema.specs.declared.def.MapForm.TheVariants as MF;
ghost use Rattle.ild_schema.specs.declared.def.TypeDef.TheVariants as D;
ghost use Rattle.ild_schema.specs.declared.row.Row.{Row};
ghost use Rattle.ild_view_walk.specs.inside.Inside.{OpensMany};
ghost use Rattle.ild_view_walk.specs.inside.Opens.{IsOpening, OpensPiece, OpensTextPairs};
ghost use Rattle.ild_layer_parts.specs.Ready.{IsIn};

use crate::opening::{Opening, Stop};
use ild_cbor::{Piece, Why};
use ild_layer_pairs::{pairs_cause, repeats_text};
use ild_layer_parts::{PairEntries, Parts, TextEntries};
use ild_layer_piece::{items, text};
use ild_schema::{Slot, TypeNo};
use ild_text::pairs;
use std::alloc::Global;

/// The pairs of a text.
pub(crate) fn open_stringpairs<'b>(
    alloc: Global,
    key: TypeNo,
    value: Slot,
    inner: &'b str,
    entry: &'b str,
    piece: &Piece<'b>,
    room: u32,
) -> Result<Option<Opening<'b>>, Stop>
    requires inner_some { 0 < length inner.now }
    requires entry_some { 0 < length entry.now }
    ensures opens { OpensTextPairs piece.now room key value inner.entry.now entry.entry.now result }
    ensures ready { (rows : List Row) → IsIn rows (plainly key) → IsIn rows value → IsOpening rows room result }
    ensures many { OpensMany result }
{
    let Some(whole) = text(piece) else {
        return Err(Stop::Why(Why::Kind));
    };
    let split = match pairs(whole, inner, entry) {
        Ok(split) => split,
        Err(_) => return Err(Stop::Why(Why::Delimiter)),
    };
    let twice = match repeats_text(alloc, &split) {
        Ok(twice) => twice,
        Err(_) => return Err(Stop::Memory),
    };
    if twice {
        return Err(Stop::Why(Why::Repeat));
    }
    let Some(room) = room.checked_sub(1) else {
        return Err(Stop::Why(Why::Depth));
    };
    Ok(Some(Opening {
        parts: Parts::Texts(TextEntries::of(key, value, split)),
        room,
    }))
}

/// The pairs of a list.
pub(crate) fn open_listpairs<'b>(
    alloc: Global,
    key: TypeNo,
    value: Slot,
    piece: &Piece<'b>,
    room: u32,
) -> Result<Option<Opening<'b>>, Stop>
    ensures opens { (rows : List Row) (key_at at : ℕ) (t : Data) → StandsFor rows piece.now t → OpensPiece rows room (D.Map key key_at value at MF.ListPairs) t result }
    ensures ready { (rows : List Row) → IsIn rows (plainly key) → IsIn rows value → IsOpening rows room result }
    ensures many { OpensMany result }
{
    let Some(items) = items(piece) else {
        return Err(Stop::Why(Why::Kind));
    };
    let cause = match pairs_cause(alloc, items) {
        Ok(cause) => cause,
        Err(_) => return Err(Stop::Memory),
    };
    if let Some(why) = cause {
        return Err(Stop::Why(why));
    }
    let Some(room) = room.checked_sub(2) else {
        return Err(Stop::Why(Why::Depth));
    };
    Ok(Some(Opening {
        parts: Parts::Pairs(PairEntries::of(key, value, items)),
        room,
    }))
}
