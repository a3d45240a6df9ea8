//! An edit of the part at a path, in the block of a root view.
ghost use Rattle.std.specs.List.{AllByRecursion};
ghost use Rattle.std.specs.Prelude.{[], ℕ, Bool, IsUtf8, List};
ghost use Rattle.ild_data.specs.Data.{Data};
ghost use Rattle.ild_data.specs.Spell.{spell};
ghost use Rattle.ild_path_block.specs.Edits.{EditsPart, IsNewRoot};
ghost use Rattle.ild_path_block.specs.Spliced.{SplicedAs, AnswersBlock, IsBeneath};
ghost use Rattle.ild_schema.specs.Value.{Value};
ghost use Rattle.ild_splice.specs.Splices.{IsAt};
ghost use Rattle.ild_view.specs.View.{slot_of, table_of};

use crate::answer::{Spliced, block, told};
use crate::edit::{PartEdit, change_of, node_of};
use ild_cbor::{Node, Piece};
use ild_data::Path;
use ild_path_holder::{edits_are_edited, last_holder};
use ild_splice::{SpliceErr, nodes_are_at_places, replace};
use ild_view::View;
use std::alloc::Global;

// It does no work: its clause says that each segment is a text.
fn are_texts(path: &Path)
    ensures { AllByRecursion IsUtf8 path.now }
{
    let segments = path.as_slice();
    let mut k = 0;
    while k < segments.len() {
        let _text = segments[k].as_str();
        k += 1;
    }
}

// The block of an edit of the whole value: it is set.
fn at_root<'b>(
    alloc: Global,
    root: &Node<'_>,
    edit: &PartEdit<'_>,
) -> Result<Option<Spliced<'b>>, SpliceErr>
    ensures set { (t u : Data) → IsAt root.now t [] t → IsNewRoot edit.now u → AnswersBlock (spell u) result }
    ensures beneath { IsBeneath [] result }
{
    match edit {
        PartEdit::Set(new) => block(replace(alloc, root, new)),
        PartEdit::Insert(_) | PartEdit::Delete => Ok(None),
    }
}

/// What an edit of the part at a path makes of the block on which a root view stands: the block of what the value becomes, byte for byte, or
/// which holder on the path is replaced as a whole, by the item of what it becomes, which the caller has to make. There is an answer for each
/// edit that can be done, and it is `SpliceErr::Size` only where the new block would be longer than a block may be.
pub fn spliced<'a>(
    alloc: Global,
    root: &View<'a>,
    path: &'a Path,
    edit: &PartEdit<'_>,
) -> Result<Option<Spliced<'a>>, SpliceErr>
    ensures answers { (is_key : ℕ → List ℕ → Bool) (f w c : Value) (t u : Data) → EditsPart is_key root.now path.now edit.now f w c t u
        → SplicedAs (table_of root.now) is_key edit.now w (slot_of root.now, f) path.now t u result }
    ensures beneath { IsBeneath path.now result }
{
    // They do no work: their clauses say what acceptance says of the table, and what an edit is in a block's data.
    root.schema().recall();
    are_texts(path);
    edits_are_edited();
    nodes_are_at_places();
    let Some(Piece::Node(node)) = root.piece() else {
        return Ok(None);
    };
    let Some(segment) = path.as_slice().last() else {
        return at_root(alloc, &node, edit);
    };
    let Some(last) = last_holder(alloc, root, path)? else {
        return Ok(None);
    };
    match change_of(&last.view, segment.as_str(), edit) {
        Some(change) => told(alloc, &node, &last.steps, &change, node_of(edit)),
        None => Ok(None),
    }
}
