//! Maps as HAMTs.
ghost use Rattle.std.specs.Prelude.{◌≡◌, ℕ, List, false};
ghost use Rattle.ild_data.specs.Data.{Data};
ghost use Rattle.ild_cbor.specs.Nodes.{HasData};
ghost use Rattle.ild_layer_piece.specs.Pieces.{StandsFor};
ghost use Rattle.ild_schema.specs.Slots.{plainly};
ghost use Rattle.ild_schema.specs.declared.def.MapForm.TheVariants as MF;
ghost use Rattle.ild_schema.specs.declared.def.TypeDef.TheVariants as D;
ghost use Rattle.ild_schema.specs.declared.row.Row.{Row};
ghost use Rattle.ild_union.specs.Forms.{passes_over};
ghost use Rattle.ild_view_walk.specs.inside.Inside.{OpensMany};
ghost use Rattle.ild_view_walk.specs.inside.Opens.{IsOpening, OpensPiece};
ghost use Rattle.ild_layer_parts.specs.Ready.{IsIn};

use crate::opening::{Opening, Stop};
use ild_cbor::{Kind, Node, Piece, Why};
use ild_data::HamtShape;
use ild_layer_parts::{Parts, RootEntries};
use ild_node_slots::root_of;
use ild_schema::{Slot, TypeNo};

/// The entries in the block of a HAMT's root.
pub(crate) fn open_hamt<'b>(
    key: TypeNo,
    value: Slot,
    shape: HamtShape,
    piece: &Piece<'b>,
    room: u32,
) -> Result<Option<Opening<'b>>, Stop>
    requires { passes_over piece.now ≡ false }
    ensures opens { (rows : List Row) (key_at at : ℕ) (t : Data) → StandsFor rows piece.now t → OpensPiece rows room (D.Map key key_at value at (MF.Hamt shape)) t result }
    ensures ready { (rows : List Row) → IsIn rows (plainly key) → IsIn rows value → IsOpening rows room result }
    ensures many { OpensMany result }
{
    match piece {
        Piece::Node(node) => open_root(key, value, shape, *node, room),
        Piece::Text(_) => Err(Stop::Why(Why::Kind)),
        Piece::Bytes(_) => Err(Stop::Why(Why::Kind)),
        Piece::Inline(_, _) => unreachable!(),
    }
}

// The same where the piece is an item.
fn open_root<'b>(
    key: TypeNo,
    value: Slot,
    shape: HamtShape,
    node: Node<'b>,
    room: u32,
) -> Result<Option<Opening<'b>>, Stop>
    ensures opens { (rows : List Row) (key_at at : ℕ) (t : Data) → HasData node.entry t → OpensPiece rows room (D.Map key key_at value at (MF.Hamt shape)) t result }
    ensures ready { (rows : List Row) → IsIn rows (plainly key) → IsIn rows value → IsOpening rows room result }
    ensures many { OpensMany result }
{
    match node.kind() {
        Kind::Map => {}
        _ => return Err(Stop::Why(Why::Kind)),
    }
    let Some(room) = room.checked_sub(5) else {
        return Err(Stop::Why(Why::Depth));
    };
    match root_of(node, shape) {
        Ok(view) => Ok(Some(Opening {
            parts: Parts::Root(RootEntries::of(key, value, &view)),
            room,
        })),
        Err(why) => Err(Stop::Why(why)),
    }
}
