//! Any data but null.
ghost use Rattle.std.specs.Prelude.{◌≡◌, List, nat_le, false};
ghost use Rattle.ild_data.specs.Data.{Data, depth};
ghost use Rattle.ild_cbor.specs.Nodes.{HasData};
ghost use Rattle.ild_layer_piece.specs.Pieces.{StandsFor};
ghost use Rattle.ild_schema.specs.declared.def.TypeDef.TheVariants as D;
ghost use Rattle.ild_schema.specs.declared.row.Row.{Row};
ghost use Rattle.ild_union.specs.Forms.{passes_over};
ghost use Rattle.ild_view_walk.specs.inside.Inside.{OpensMany};
ghost use Rattle.ild_view_walk.specs.inside.Opens.{IsOpening, OpensPiece};

use crate::opening::{Opening, Stop};
use ild_cbor::{Kind, Node, Piece, Why};

// Whether the data nest at most so deep.
fn nests_within(node: &Node<'_>, room: u32) -> bool
    ensures { (t : Data) → HasData node.now t → result ≡ nat_le (depth t) room }
{
    if let Some(items) = node.items() {
        if room == 0 {
            return false;
        }
        let mut left = items;
        while let Some(item) = left.next() {
            if !nests_within(&item, room - 1) {
                return false;
            }
        }
        return true;
    }
    if let Some(entries) = node.entries() {
        if room == 0 {
            return false;
        }
        let mut rest = entries;
        while let Some((_, value)) = rest.next() {
            if !nests_within(&value, room - 1) {
                return false;
            }
        }
        return true;
    }
    true
}

/// Any data but null.
pub(crate) fn open_any<'b>(piece: &Piece<'b>, room: u32) -> Result<Option<Opening<'b>>, Stop>
    requires { passes_over piece.now ≡ false }
    ensures opens { (rows : List Row) (t : Data) → StandsFor rows piece.now t → OpensPiece rows room D.Any t result }
    ensures ready { (rows : List Row) → IsOpening rows room result }
    ensures many { OpensMany result }
{
    match piece {
        Piece::Node(node) => match node.kind() {
            Kind::Null => Err(Stop::Why(Why::Kind)),
            _ => {
                if nests_within(node, room) {
                    Ok(None)
                } else {
                    Err(Stop::Why(Why::Depth))
                }
            }
        },
        Piece::Text(_) => Ok(None),
        Piece::Bytes(_) => Ok(None),
        Piece::Inline(_, _) => unreachable!(),
    }
}
