//! Whether an edit at a place breaks a delimiter rule.
ghost use Rattle.std.specs.Prelude.{◌≡◌};
ghost use Rattle.ild_path_around.specs.Around.{TellsComing, TellsGoing, TellsInBlock, text_edit_of};

use ild_data::Path;
use ild_path_delimiter::{TextEdit, breaks_delimiter, only_texts_break};
use ild_path_place::{End, Place, Verb};
use ild_path_textless::textless_parts_break_nothing;
use std::alloc::{AllocError, Global};

// The edit of a text, where one comes or what is there goes.
fn text_edit<'t>(verb: Verb, text: Option<&'t str>) -> Option<TextEdit<'t>>
    ensures { result ≡ text_edit_of verb text.entry }
{
    match verb {
        Verb::Set => match text {
            Some(text) => Some(TextEdit::Set(text)),
            None => None,
        },
        Verb::Ins => match text {
            Some(text) => Some(TextEdit::Insert(text)),
            None => None,
        },
        Verb::Del => Some(TextEdit::Delete),
    }
}

// Whether the edit breaks a rule in the innermost block.
fn in_block(
    alloc: Global,
    place: &Place<'_>,
    path: &Path,
    edit: TextEdit<'_>,
) -> Result<bool, AllocError>
    ensures { TellsInBlock place.now path.now edit.entry result }
{
    match place.hops().last() {
        Some(hop) => {
            let entry = &hop.entry;
            breaks_delimiter(alloc, &entry.view(), path, edit)
        }
        None => breaks_delimiter(alloc, place.root(), path, edit),
    }
}

/// Whether a text around the part at a place breaks a delimiter rule with the part that comes there, whose text this is where it has one;
/// or without the one that goes. No HAMT stands in a text, so the innermost block alone is asked; and what has no text breaks none.
pub fn breaks_around(
    alloc: Global,
    place: &Place<'_>,
    text: Option<&str>,
) -> Result<bool, AllocError>
    ensures coming { TellsComing place.now text.entry result }
    ensures going { TellsGoing place.now result }
{
    // They do no work: laws of what stands in no text.
    only_texts_break();
    textless_parts_break_nothing();
    let Some(edit) = text_edit(place.verb(), text) else {
        return Ok(false);
    };
    match place.end() {
        End::InBlock(path) => in_block(alloc, place, path, edit),
        End::Whole => Ok(false),
        End::AtKey(..) => Ok(false),
    }
}
