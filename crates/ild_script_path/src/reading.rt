//! A path, read from its text.
ghost use Rattle.std.specs.Prelude.{◌≡◌, ◌++◌, IfOk, codes, string_bytes};
ghost use Rattle.ild_script_path.specs.Asks.{AsksPath};

use ild_data::Path;
use ild_script::{LineErr, line_of};
use std::alloc::{AllocError, Global};

// A line that reads at the path of a text, if that writes one.
fn line_at(alloc: Global, text: &str) -> Result<String, AllocError>
    ensures { IfOk result (λ line. string_bytes line ≡ codes "get " ++ text.now) }
{
    let mut line = String::from_str(alloc, "get ")?;
    line.push_str(text)?;
    Ok(line)
}

/// The path that a text writes: `.` is the root's, and else each segment stands behind a slash, with its escapes. It is `None` for every other
/// text.
pub fn path_of_text(alloc: Global, text: &str) -> Result<Option<Path>, AllocError>
    ensures { AsksPath text.now result }
{
    let line = line_at(alloc, text)?;
    match line_of(alloc, line.as_bytes()) {
        Ok(Some(command)) => Ok(Some(command.path)),
        Ok(None) => Ok(None),
        Err(LineErr::Line) => Ok(None),
        Err(LineErr::Memory) => Err(AllocError),
    }
}
