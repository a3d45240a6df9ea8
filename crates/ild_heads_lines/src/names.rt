//! The names of heads.
ghost use Rattle.std.specs.Prelude.{◌≡◌};
ghost use Rattle.std.specs.List.{list_all};
ghost use Rattle.ild_script.specs.Laws.{is_segment_byte};
ghost use Rattle.ild_script.specs.Reads.{ReadsSo};
ghost use Rattle.ild_heads_lines.specs.Name.{name_of};

use ild_data::Txt;
use ild_script::{LineErr, unescape};
use std::alloc::Global;

/// Whether neither a slash nor a space nor a line feed stands in a text.
fn is_segment(text: &str) -> bool
    ensures { result ≡ list_all is_segment_byte text.now }
{
    text.as_bytes()
        .iter()
        .all(|b| *b != b'/' && *b != b' ' && *b != b'\n')
}

/// The name that a segment writes, which isn't empty.
pub(crate) fn name_of(alloc: Global, text: &str) -> Result<Txt, LineErr>
    ensures { ReadsSo (λ t. t) result (name_of text.now) }
{
    if text.is_empty() {
        return Err(LineErr::Line);
    }
    if !is_segment(text) {
        return Err(LineErr::Line);
    }
    unescape(alloc, text)
}
