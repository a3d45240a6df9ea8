//! The tree of a piece.
ghost use Rattle.std.specs.Prelude.{◌≡◌, IfOk, List, ℕ};
ghost use Rattle.ild_data.specs.Data.{Data};
ghost use Rattle.ild_data.specs.Key.{Rises};
ghost use Rattle.ild_data.specs.Seen.{data_of};
ghost use Rattle.ild_layer_piece.specs.Entries.{HasLeft};
ghost use Rattle.ild_layer_piece.specs.Pieces.{IsNumbered, StandsFor};
ghost use Rattle.ild_typed.specs.Strings.{map_data};

use crate::tree::tree_of;
use ild_cbor::Piece;
use ild_data::{Entries, Octets, Tree, Txt};
use ild_layer_piece::{MapEntries, entries};
use ild_schema::Accepted;
use std::alloc::{AllocError, Global};

// The map of these entries.
fn entries_tree(alloc: Global, entries: MapEntries<'_>) -> Result<Tree, AllocError>
    ensures { IfOk result (λ tree. (es : List (List ℕ × Data)) → HasLeft entries.entry es → Rises es → data_of tree ≡ map_data es) }
{
    let mut members = Entries::new(alloc);
    let mut left = entries;
    while let Some((key, value)) = left.next() {
        let name = Txt::of(alloc, key)?;
        let tree = tree_of(alloc, &value)?;
        members.put(name, tree)?;
    }
    Ok(Tree::Map(members))
}

/// The tree of the data for which a piece stands.
pub fn piece_tree<'b>(
    alloc: Global,
    acc: &'b Accepted,
    piece: &Piece<'b>,
) -> Result<Tree, AllocError>
    requires { IsNumbered acc.now piece.now }
    ensures { IfOk result (λ tree. (t : Data) → StandsFor acc.now piece.now t → data_of tree ≡ t) }
{
    match piece {
        Piece::Node(node) => tree_of(alloc, node),
        Piece::Text(text) => Ok(Tree::Text(Txt::of(alloc, text)?)),
        Piece::Bytes(bytes) => Ok(Tree::Bytes(Octets::of(alloc, bytes)?)),
        Piece::Inline(_, _) => match entries(acc, piece) {
            Some(left) => entries_tree(alloc, left),
            None => Ok(Tree::Null),
        },
    }
}
