//! Paths in a line.
ghost use Rattle.std.specs.Prelude.{◌≡◌};
ghost use Rattle.std.specs.List.{list_all};
ghost use Rattle.ild_script.specs.Path.{is_bare, path_of, segments_of};
ghost use Rattle.ild_script.specs.Reads.{ReadsSo};

use crate::LineErr;
use crate::escape::unescape;
use ild_data::Path;
use std::alloc::Global;

/// Whether neither a space nor a line feed stands in a text.
fn is_bare(text: &str) -> bool
    ensures { result ≡ list_all is_bare text.now }
{
    text.as_bytes().iter().all(|b| *b != b' ' && *b != b'\n')
}

/// The segments between slashes.
fn segments_of(alloc: Global, text: &str) -> Result<Path, LineErr>
    ensures { ReadsSo (λ p. p) result (segments_of text.now) }
{
    let mut path = Path::new(alloc);
    let mut rest = text;
    while let Some((segment, after)) = rest.split_once('/') {
        path.push(unescape(alloc, segment)?)?;
        rest = after;
    }
    path.push(unescape(alloc, rest)?)?;
    Ok(path)
}

/// The path that a text writes.
pub fn path_of(alloc: Global, text: &str) -> Result<Path, LineErr>
    ensures { ReadsSo (λ p. p) result (path_of text.now) }
{
    if text == "." {
        return Ok(Path::new(alloc));
    }
    match text.strip_prefix("/") {
        Some(segments) => {
            if is_bare(text) {
                segments_of(alloc, segments)
            } else {
                Err(LineErr::Line)
            }
        }
        None => Err(LineErr::Line),
    }
}
