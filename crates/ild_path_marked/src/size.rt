//! How many bytes a new item has.
ghost use Rattle.std.specs.Prelude.{◌≡◌, ◌^◌, ◌-◌, length, min};
ghost use Rattle.ild_path_marked.specs.inside.Parts.{bytes_of, part_bytes};

use crate::hex::hex_count;
use crate::part::Part;
use ild_splice::{head_size, text_size};

// How many bytes a part has.
fn part_size(part: Part<'_, '_>) -> u128
    ensures { result ≡ length (part_bytes part.entry) }
{
    match part {
        Part::Map(n) => head_size(n) as u128,
        Part::TextHead(n) => head_size(n) as u128,
        Part::BytesHead(n) => head_size(n) as u128,
        Part::Text(text) => text_size(text),
        Part::Hex(text) => hex_count(text) as u128,
        Part::Spelled(bytes) => bytes.len() as u128,
    }
}

/// How many bytes the parts have together, or the greatest number where they are more.
pub(crate) fn size_of(parts: &[Part<'_, '_>]) -> u128
    ensures { result ≡ min (length (bytes_of parts.now)) (2 ^ 128 - 1) }
{
    let mut size: u128 = 0;
    for part in parts {
        size = size.saturating_add(part_size(*part));
    }
    size
}
