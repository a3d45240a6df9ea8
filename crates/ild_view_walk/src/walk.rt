//! The walk over a piece and its parts.
ghost use Rattle.std.specs.Prelude.{◌≡◌, ◌<◌, IfErr, List, Some, length};
ghost use Rattle.ild_data.specs.Data.{Data};
ghost use Rattle.ild_data.specs.Tree.{IsTree};
ghost use Rattle.ild_layer_piece.specs.Pieces.{IsNumbered, StandsFor};
ghost use Rattle.ild_schema.specs.Kinds.{meant};
ghost use Rattle.ild_schema.specs.declared.def.TypeDef.{TypeDef as Def};
ghost use Rattle.ild_schema.specs.declared.row.Row.{Row};
ghost use Rattle.ild_view_walk.specs.Checks.{Checks};
ghost use Rattle.ild_view_walk.specs.inside.Inside.{IsOpenInside};
ghost use Rattle.ild_view_walk.specs.inside.Opens.{IsOpening, OpensPiece};
ghost use Rattle.ild_layer_parts.specs.Ready.{IsIn, IsInlined};
ghost use Rattle.ild_view_walk.specs.Told.{TellsPlaceIn};

use crate::any::open_any;
use crate::fault::ViewErr;
use crate::hamt::open_hamt;
use crate::list::open_list;
use crate::map::open_map;
use crate::opening::{Opening, Stop};
use crate::pairs::{open_listpairs, open_stringpairs};
use crate::refusal::{own_refusal, part_refusal};
use crate::scalar::{open_enum, open_scalar, open_unit};
use crate::structs::open_struct;
use crate::union::open_union;
use ild_cbor::{Kind, Piece};
use ild_layer_parts::behind_leaves;
use ild_layer_piece::is_null_there;
use ild_layer_places::place_of;
use ild_schema::{Accepted, MapForm, Slot, TypeDef};
use std::alloc::Global;

// What is found of a piece by itself.
pub(crate) fn open_piece<'b>(
    alloc: Global,
    acc: &'b Accepted,
    slot: Slot,
    piece: &Piece<'b>,
    room: u32,
) -> Result<Option<Opening<'b>>, Stop>
    requires within { IsIn acc.now slot }
    requires numbered { IsNumbered acc.now piece.now }
    requires inlined { IsInlined acc.now slot piece.now }
    ensures opens { (d : Def) (t : Data) → StandsFor acc.now piece.now t → meant acc.now slot.ty.0 ≡ Some d → OpensPiece acc.now room d t result }
    ensures ready { IsOpening acc.now room result }
    ensures inside { IsOpenInside acc.now slot.ty.0 piece.now result }
{
    acc.recall();
    match acc.def(acc.base(slot.ty)) {
        TypeDef::Bool => open_scalar(Kind::Bool, piece, room),
        TypeDef::Text => open_scalar(Kind::Text, piece, room),
        TypeDef::Bytes => open_scalar(Kind::Bytes, piece, room),
        TypeDef::Int => open_scalar(Kind::Int, piece, room),
        TypeDef::Link(_) => open_scalar(Kind::Link, piece, room),
        TypeDef::Any => open_any(piece, room),
        TypeDef::Unit(_) => open_unit(acc, slot.ty, piece, room),
        TypeDef::List { elem, .. } => open_list(*elem, piece, room),
        TypeDef::Map {
            key,
            value,
            form,
            ..
        } => match form {
            MapForm::Map => open_map(acc, *key, *value, piece, room),
            MapForm::Hamt(shape) => open_hamt(*key, *value, *shape, piece, room),
            MapForm::StringPairs(inner, entry) => open_stringpairs(
                alloc,
                *key,
                *value,
                inner.as_str(),
                entry.as_str(),
                piece,
                room,
            ),
            MapForm::ListPairs => open_listpairs(alloc, *key, *value, piece, room),
        },
        TypeDef::Struct(def) => open_struct(acc, slot.ty, def, piece, room),
        TypeDef::Union(def) => open_union(acc, slot.ty, def, piece, room),
        TypeDef::Enum(_) => open_enum(acc, slot.ty, piece, room),
        TypeDef::Copy(_) => unreachable!(),
    }
}

/// Whether a piece has a front of a slot that fits in a room, or the first refusal of the walk of it.
pub(crate) fn check_piece<'b>(
    alloc: Global,
    acc: &'b Accepted,
    slot: Slot,
    piece: &Piece<'b>,
    room: u32,
) -> Result<(), ViewErr>
    requires within { IsIn acc.now slot }
    requires numbered { IsNumbered acc.now piece.now }
    requires inlined { IsInlined acc.now slot piece.now }
    ensures checks { (t : Data) → StandsFor acc.now piece.now t → IsTree t → Checks acc.now room slot t result }
    ensures place { (t : Data) → StandsFor acc.now piece.now t → IsTree t → IfErr result (TellsPlaceIn acc.now room slot piece.now t) }
{
    acc.recall();
    if is_null_there(slot, piece) {
        return Ok(());
    }
    let opened = match open_piece(alloc, acc, slot, piece, room) {
        Ok(opened) => opened,
        Err(stop) => return Err(own_refusal(slot, stop)),
    };
    let Some(opening) = opened else {
        return Ok(());
    };
    let mut parts = behind_leaves(acc, opening.parts);
    while let Some((part, behind)) = parts.split_first() {
        if let Some(part) = part {
            if let Err(fault) = check_piece(alloc, acc, part.slot, &part.piece, opening.room) {
                return Err(part_refusal(&part, place_of(piece, &parts.way(&part)), fault));
            }
        }
        parts = behind;
    }
    Ok(())
}
