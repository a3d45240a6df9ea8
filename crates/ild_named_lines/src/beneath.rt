//! A script with `/value` before each path, made in one pass.
ghost use Rattle.std.specs.Prelude.{◌≡◌, ◌++◌, IfOk, OnOk, position};
ghost use Rattle.ild_script.specs.Line.{is_feed, is_space};
ghost use Rattle.ild_named_lines.specs.Beneath.{line_beneath, path_beneath, rest_beneath, script_beneath};

use ild_data::Octets;
use std::alloc::{AllocError, Global};

/// Where the first line feed stands.
fn feed_at(bytes: &[u8]) -> Option<usize>
    ensures { result ≡ position is_feed bytes.now }
{
    bytes.iter().position(|b| *b == b'\n')
}

/// Where the first space stands.
fn space_at(bytes: &[u8]) -> Option<usize>
    ensures { result ≡ position is_space bytes.now }
{
    bytes.iter().position(|b| *b == b' ')
}

/// Appends a path with `/value` before it.
fn push_path(text: &mut Vec<u8>, path: &[u8]) -> Result<(), AllocError>
    ensures { OnOk result (text.new.items ≡ text.old.items ++ path_beneath path.now) }
{
    match path {
        [b'.'] => text.extend_from_slice(b"/value"),
        [b'/', ..] => {
            text.extend_from_slice(b"/value")?;
            text.extend_from_slice(path)
        }
        _ => text.extend_from_slice(path),
    }
}

/// Appends what stands behind a line's word, with `/value` before the path.
fn push_rest(text: &mut Vec<u8>, rest: &[u8]) -> Result<(), AllocError>
    ensures { OnOk result (text.new.items ≡ text.old.items ++ rest_beneath rest.now) }
{
    match space_at(rest) {
        Some(at) => {
            push_path(text, &rest[..at])?;
            text.extend_from_slice(&rest[at..])
        }
        None => push_path(text, rest),
    }
}

/// Appends a line with `/value` before its path.
fn push_line(text: &mut Vec<u8>, line: &[u8]) -> Result<(), AllocError>
    ensures { OnOk result (text.new.items ≡ text.old.items ++ line_beneath line.now) }
{
    match space_at(line) {
        Some(at) => {
            text.extend_from_slice(&line[..at + 1])?;
            push_rest(text, &line[at + 1..])
        }
        None => text.extend_from_slice(line),
    }
}

/// The script with `/value` before the path of each line that has one. All other lines stay as they are. `Err` is want of memory.
pub fn script_beneath(alloc: Global, script: &[u8]) -> Result<Octets, AllocError>
    ensures { IfOk result (λ text. text ≡ script_beneath script.now) }
{
    let mut text = Vec::with_capacity(alloc, script.len())?;
    let mut rest = script;
    while let Some(at) = feed_at(rest) {
        push_line(&mut text, &rest[..at])?;
        text.push(b'\n')?;
        rest = &rest[at + 1..];
    }
    push_line(&mut text, rest)?;
    Ok(Octets::from_vec(text))
}
