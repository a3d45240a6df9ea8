//! Values without parts.
ghost use Rattle.std.specs.Prelude.{◌≡◌, ◌<◌, IfErr, IfOk, List, length, option_map, ℕ};
ghost use Rattle.ild_cbor.specs.Scalar.{link_of};
ghost use Rattle.ild_data.specs.CidView.{cid_bytes};
ghost use Rattle.ild_data.specs.Data.{Data};
ghost use Rattle.ild_layer_piece.specs.Pieces.{IsNumbered, StandsFor};
ghost use Rattle.ild_open_held.specs.Laws.{IsFronted};
ghost use Rattle.ild_open_parts.specs.Leaf.{HasLeaf, IsLeafOf, IsLeafSlot, StandsAsLayer};
ghost use Rattle.ild_schema.specs.declared.row.Row.{Row};
ghost use Rattle.ild_open_parts.specs.declared.fault.OpenFault.TheVariants.{Memory};

use crate::fault::OpenFault;
use ild_cbor::Piece;
use ild_data::{CidRef, Octets, Txt};
use ild_enum::{layer, unit};
use ild_layer_piece::{boolean, bytes, int, text};
use ild_schema::{Accepted, Slot, TypeDef, Val};
use ild_view_tree::piece_tree;
use std::alloc::Global;

// The link, or `None` where the data are of another kind.
fn link<'b>(piece: &Piece<'b>) -> Option<CidRef<'b>>
    ensures { (rows : List Row) (t : Data) → StandsFor rows piece.now t → option_map cid_bytes result ≡ link_of t }
{
    match piece {
        Piece::Node(node) => node.link(),
        Piece::Text(_) | Piece::Bytes(_) | Piece::Inline(_, _) => None,
    }
}

// The value without parts for which a piece stands, which was checked against the type.
fn leaf<'b>(
    alloc: Global,
    acc: &'b Accepted,
    slot: Slot,
    piece: &Piece<'b>,
) -> Result<Val, OpenFault>
    requires within { slot.ty.0 < length acc.now }
    requires numbered { IsNumbered acc.now piece.now }
    requires plain { IsLeafSlot acc.now slot }
    requires layered { StandsAsLayer acc.now slot piece.now }
    ensures ok { (t : Data) → StandsFor acc.now piece.now t → IfOk result (IsLeafOf acc.now slot t) }
    ensures err { IfErr result (λ e. e ≡ Memory) }
{
    acc.recall();
    match acc.def(acc.base(slot.ty)) {
        TypeDef::Bool => match boolean(piece) {
            Some(truth) => Ok(Val::Bool(truth)),
            None => unreachable!(),
        },
        TypeDef::Int => match int(piece) {
            Some(integer) => Ok(Val::Int(integer)),
            None => unreachable!(),
        },
        TypeDef::Text => match text(piece) {
            Some(text) => Ok(Val::Text(Txt::of(alloc, text)?)),
            None => unreachable!(),
        },
        TypeDef::Bytes => match bytes(piece) {
            Some(bytes) => Ok(Val::Bytes(Octets::of(alloc, bytes)?)),
            None => unreachable!(),
        },
        TypeDef::Link(_) => match link(piece) {
            Some(cid) => Ok(Val::Link(cid.own(alloc)?)),
            None => unreachable!(),
        },
        TypeDef::Any => Ok(Val::Any(piece_tree(alloc, acc, piece)?)),
        TypeDef::Unit(_) => match unit(acc, slot.ty, *piece) {
            Ok(()) => Ok(Val::Unit),
            Err(_) => unreachable!(),
        },
        TypeDef::Enum(_) => match layer(acc, slot.ty, *piece) {
            Ok(number) => Ok(Val::Enum(number)),
            Err(_) => unreachable!(),
        },
        _ => unreachable!(),
    }
}

/// The value without parts for which a piece stands, which was checked against the type, where it is to be kept, and else anything.
pub fn kept_leaf<'b>(
    alloc: Global,
    acc: &'b Accepted,
    slot: Slot,
    piece: &Piece<'b>,
    keep: bool,
) -> Result<Val, OpenFault>
    requires within { slot.ty.0 < length acc.now }
    requires numbered { IsNumbered acc.now piece.now }
    requires plain { IsLeafSlot acc.now slot }
    requires layered { StandsAsLayer acc.now slot piece.now }
    ensures ok { (t : Data) (room : ℕ) → StandsFor acc.now piece.now t → IsFronted acc.now room slot t → IfOk result (HasLeaf acc.now room slot t keep) }
    ensures err { IfErr result (λ e. e ≡ Memory) }
{
    acc.recall();
    if keep {
        return leaf(alloc, acc, slot, piece);
    }
    Ok(Val::Null)
}
