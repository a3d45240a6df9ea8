//! The block of a view.
ghost use Rattle.std.specs.Prelude.{◌≡◌};
ghost use Rattle.ild_path_found.specs.Sites.{block_in};
ghost use Rattle.ild_view.specs.View.{piece_of};

use ild_cbor::Piece;
use ild_view::View;

/// The block in which a view's item stands. It is empty where the view is of no item.
pub fn block_of<'b>(view: &View<'b>) -> &'b [u8]
    ensures { result.now ≡ block_in (piece_of view.now) }
{
    match view.piece() {
        Some(Piece::Node(node)) => node.block(),
        Some(Piece::Inline(node, _)) => node.block(),
        Some(Piece::Text(_)) => &[],
        Some(Piece::Bytes(_)) => &[],
        None => &[],
    }
}
