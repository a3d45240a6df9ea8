//! Types whose data are told by their kind alone and have no parts.
ghost use Rattle.std.specs.Prelude.{◌≡◌, ℕ, IfSome, true};
ghost use Rattle.ild_data.specs.Data.{Data};
ghost use Rattle.ild_data.specs.Tree.{IsTree};
ghost use Rattle.ild_layer_piece.specs.Pieces.{StandsFor};
ghost use Rattle.ild_typed.specs.Fits.{Fits};
ghost use Rattle.ild_typed.specs.Layers.{RepresentsSome};
ghost use Rattle.ild_layer_parts.specs.inside.Leaf.{FitsOfKind};
ghost use Rattle.ild_layer_parts.specs.Ready.{IsIn};

use ild_cbor::{Kind, Piece};
use ild_layer_piece::{is_null_there, kind};
use ild_schema::{Accepted, Slot, TypeDef};

/// The kind of which all data are values of a slot, where there is one.
pub(crate) fn leaf_kind(acc: &Accepted, slot: Slot) -> Option<Kind>
    requires { IsIn acc.now slot }
    ensures { IfSome result (FitsOfKind acc.now slot) }
{
    acc.recall();
    match acc.def(acc.base(slot.ty)) {
        TypeDef::Bool => Some(Kind::Bool),
        TypeDef::Text => Some(Kind::Text),
        TypeDef::Bytes => Some(Kind::Bytes),
        TypeDef::Int => Some(Kind::Int),
        TypeDef::Link(_) => Some(Kind::Link),
        _ => None,
    }
}

/// Whether a piece is a value of a slot that its kind alone tells.
pub fn is_leaf(acc: &Accepted, slot: Slot, piece: &Piece<'_>) -> bool
    requires { IsIn acc.now slot }
    ensures { result ≡ true → (t : Data) → StandsFor acc.now piece.now t → IsTree t → (room : ℕ) → RepresentsSome (Fits acc.now room) acc.now slot t }
{
    match leaf_kind(acc, slot) {
        Some(wanted) => {
            if kind(piece) == wanted {
                return true;
            }
            is_null_there(slot, piece)
        }
        None => false,
    }
}
