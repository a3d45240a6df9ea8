//! The lines of a script.
ghost use Rattle.std.specs.Prelude.{◌≡◌};
ghost use Rattle.ild_script.specs.Line.{read_json, read_rest, read_behind, read_alone, reads_text, word_of, shape_of};
ghost use Rattle.ild_script.specs.Reads.{IsRest, ReadsAs, ReadsCommand, ReadsRest};

use crate::path::path_of;
use crate::word::word_of;
use crate::{LineErr, Shape, Word};
use ild_data::Path;
use std::alloc::Global;
use std::str;

/// A line that was read: its word, its path (the root's where it has none), and the offset at which its json begins
/// (the line's length where it has none).
#[derive(Drop)]
pub struct Line {
    pub verb: Word,
    pub path: Path,
    pub json_at: usize,
}

/// A path, a space and a json text: the path, and the length of the json.
fn path_and_json(alloc: Global, verb: Word, rest: &str) -> Result<(Path, usize), LineErr>
    ensures { ReadsRest verb rest.now result (read_json verb rest.now) }
{
    match rest.split_once(' ') {
        Some((path, json)) => {
            if json.is_empty() {
                return Err(LineErr::Line);
            }
            let path = path_of(alloc, path)?;
            Ok((path, json.len()))
        }
        None => Err(LineErr::Line),
    }
}

/// What stands behind a word and a space: the path, and the length of the json.
fn read_rest(alloc: Global, verb: Word, rest: &str) -> Result<(Path, usize), LineErr>
    ensures { ReadsRest verb rest.now result (read_rest verb (shape_of verb) rest.now) }
{
    match verb.shape() {
        Shape::Alone => Err(LineErr::Line),
        Shape::WithPath => {
            let path = path_of(alloc, rest)?;
            Ok((path, 0))
        }
        Shape::WithJson => path_and_json(alloc, verb, rest),
    }
}

/// A line with a space in it.
fn line_with(alloc: Global, text: &str, word: &str, rest: &str) -> Result<Line, LineErr>
    requires { IsRest rest.now text.now }
    ensures { ReadsCommand text.now result (read_behind (word_of word.now) rest.now) }
{
    let Some(verb) = word_of(word) else {
        return Err(LineErr::Line);
    };
    let (path, json) = read_rest(alloc, verb, rest)?;
    Ok(Line {
        verb,
        path,
        json_at: text.len() - json,
    })
}

/// A word with nothing behind it.
fn line_alone(alloc: Global, text: &str) -> Result<Line, LineErr>
    ensures { ReadsCommand text.now result (read_alone (word_of text.now)) }
{
    let Some(verb) = word_of(text) else {
        return Err(LineErr::Line);
    };
    match verb.shape() {
        Shape::Alone => Ok(Line {
            verb,
            path: Path::new(alloc),
            json_at: text.len(),
        }),
        Shape::WithPath | Shape::WithJson => Err(LineErr::Line),
    }
}

fn line_of_text(alloc: Global, text: &str) -> Result<Line, LineErr>
    ensures { ReadsCommand text.now result (reads_text text.now) }
{
    match text.split_once(' ') {
        Some((word, rest)) => line_with(alloc, text, word, rest),
        None => line_alone(alloc, text),
    }
}

/// Reads a line by the grammar; `None` is the empty line.
pub fn line_of(alloc: Global, line: &[u8]) -> Result<Option<Line>, LineErr>
    ensures { ReadsAs line.now result }
{
    if line.is_empty() {
        return Ok(None);
    }
    match str::from_utf8(line) {
        Ok(text) => match line_of_text(alloc, text) {
            Ok(read) => Ok(Some(read)),
            Err(fault) => Err(fault),
        },
        Err(_) => Err(LineErr::Line),
    }
}
