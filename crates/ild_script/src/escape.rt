//! The escapes of a path's segments.
ghost use Rattle.std.specs.Prelude.{◌≡◌, option_map};
ghost use Rattle.ild_script.specs.Escape.{unescaped, behind_tilde};
ghost use Rattle.ild_script.specs.Reads.{ReadsSo};

use crate::LineErr;
use ild_data::Txt;
use std::alloc::Global;

/// The character that a digit behind `~` stands for, and what follows the digit.
fn behind_tilde(rest: &str) -> Option<(char, &str)>
    ensures { option_map (λ p. (p.0, p.1.now)) result ≡ behind_tilde rest.now }
{
    if let Some(after) = rest.strip_prefix("0") {
        return Some(('~', after));
    }
    if let Some(after) = rest.strip_prefix("1") {
        return Some(('/', after));
    }
    if let Some(after) = rest.strip_prefix("2") {
        return Some((' ', after));
    }
    if let Some(after) = rest.strip_prefix("3") {
        return Some(('\n', after));
    }
    None
}

/// The text that a segment writes.
pub fn unescape(alloc: Global, segment: &str) -> Result<Txt, LineErr>
    ensures { ReadsSo (λ t. t) result (unescaped segment.now) }
{
    let mut text = String::new(alloc);
    let mut rest = segment;
    while let Some((plain, escape)) = rest.split_once('~') {
        text.push_str(plain)?;
        let Some((meant, after)) = behind_tilde(escape) else {
            return Err(LineErr::Line);
        };
        text.push(meant)?;
        rest = after;
    }
    text.push_str(rest)?;
    Ok(Txt::from_string(text))
}
