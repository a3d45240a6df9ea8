//! Whether an edit breaks a delimiter rule.
ghost use Rattle.ild_path_delimiter.specs.Tells.{TellsOfTextEdit};

use crate::along::breaks;
use ild_data::Path;
use ild_path_edit::holders;
use ild_view::View;
use std::alloc::{AllocError, Global};

/// What is done to the part at the last segment of a path, where the part is in text form.
#[derive(Clone, Copy)]
pub enum TextEdit<'t> {
    /// It becomes what this text represents.
    Set(&'t str),
    /// What this text represents comes there.
    Insert(&'t str),
    /// It goes.
    Delete,
}

/// Whether a delimiter rule of a text around the part at a path breaks by an edit of the part: the delimiter stands in such a text elsewhere
/// than at its joints, where all occurrences count, overlapping ones too. Texts are made from the part outwards, each of them the part of
/// the next, up to one whose rule breaks, or to what stands as no text: it has no such rule, nor has what it stands in.
///
/// The texts may be longer than a block, of any length. An error is want of memory.
pub fn breaks_delimiter(
    alloc: Global,
    root: &View<'_>,
    path: &Path,
    edit: TextEdit<'_>,
) -> Result<bool, AllocError>
    ensures { TellsOfTextEdit root.now path.now edit.entry result }
{
    let views = holders(alloc, root, path)?;
    breaks(alloc, root, &views, path, edit)
}
