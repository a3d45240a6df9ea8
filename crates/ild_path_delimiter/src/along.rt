//! From the last holder of a path outwards.
ghost use Rattle.std.specs.Prelude.{◌≡◌};
ghost use Rattle.ild_path_delimiter.specs.Tells.{AreHoldersOf, TellsOfTextEdit};
ghost use Rattle.ild_path_delimiter.specs.TextEdits.{brought};
ghost use Rattle.ild_path_item.specs.Texts.{borrowed_text};

use crate::TextEdit;
use crate::level::{Level, level_of};
use ild_data::Path;
use ild_path_edit::are_texts;
use ild_view::View;
use std::alloc::{AllocError, Global};

// The text that an edit brings, if it does.
fn text_of<'t>(edit: TextEdit<'t>) -> Option<&'t str>
    ensures { borrowed_text result ≡ brought edit.entry }
{
    match edit {
        TextEdit::Set(text) | TextEdit::Insert(text) => Some(text),
        TextEdit::Delete => None,
    }
}

/// Whether an edit at a path breaks a delimiter rule: that of the last holder, or of one that this stands in, as a part of its text. The
/// views are those of the holders on the path.
pub(crate) fn breaks(
    alloc: Global,
    root: &View<'_>,
    views: &[View<'_>],
    path: &Path,
    edit: TextEdit<'_>,
) -> Result<bool, AllocError>
    ensures { AreHoldersOf root.now path.now views.now → TellsOfTextEdit root.now path.now edit.entry result }
{
    // They do no work: their clauses say what acceptance says of the table, and that segments are texts.
    root.schema().recall();
    are_texts(path);
    let segments = path.as_slice();
    if segments.is_empty() {
        return Ok(false);
    }
    let mut k = segments.len() - 1;
    let mut at = level_of(alloc, views, segments, k, text_of(edit))?;
    while 0 < k {
        let part = match at {
            Level::Free => return Ok(false),
            Level::Broken => return Ok(true),
            Level::Text(text) => text,
        };
        k -= 1;
        at = level_of(alloc, views, segments, k, Some(part.as_str()))?;
    }
    match at {
        Level::Free => Ok(false),
        Level::Broken => Ok(true),
        Level::Text(_) => Ok(false),
    }
}
