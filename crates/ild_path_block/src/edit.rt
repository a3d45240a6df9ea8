//! What is done to a part, and what it changes in the part's holder.
ghost use Rattle.std.specs.Prelude.{◌≡◌};
ghost use Rattle.ild_path_block.specs.Changes.{node_of, TellsChange};

use ild_cbor::Node;
use ild_path_last::{LastChange, delete_change, insert_change, set_change};
use ild_view::View;

/// What is done to the part at the last segment of a path.
#[derive(Clone, Copy)]
pub enum PartEdit<'n> {
    /// It becomes what this item stands for.
    Set(Node<'n>),
    /// What this item stands for comes there.
    Insert(Node<'n>),
    /// It goes.
    Delete,
}

/// The item of the new part, where one comes.
pub fn node_of<'n>(edit: &PartEdit<'n>) -> Option<Node<'n>>
    ensures { result ≡ node_of edit.now }
{
    match edit {
        PartEdit::Set(new) | PartEdit::Insert(new) => Some(*new),
        PartEdit::Delete => None,
    }
}

/// What an edit of the part at a segment changes in the item of its holder, of which there is a view; there is an answer for each edit
/// that can be done.
pub fn change_of<'a>(
    view: &View<'a>,
    segment: &'a str,
    edit: &PartEdit<'_>,
) -> Option<LastChange<'a>>
    ensures { TellsChange view.now segment.now edit.now result }
{
    let Some(piece) = view.piece() else {
        return None;
    };
    let (acc, slot) = (view.schema(), view.slot());
    match edit {
        PartEdit::Set(new) => Some(set_change(acc, slot, &piece, segment, new)),
        PartEdit::Insert(new) => Some(insert_change(acc, slot, &piece, segment, new)),
        PartEdit::Delete => Some(delete_change(acc, slot, &piece, segment)),
    }
}
