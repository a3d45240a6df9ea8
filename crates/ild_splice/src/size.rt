//! How many bytes a changed block has.
ghost use Rattle.std.specs.Prelude.{◌≡◌, ◌≤◌, ℕ, length};
ghost use Rattle.ild_data.specs.Spell.{head, spell_text};
ghost use Rattle.ild_splice.specs.Made.{bytes_of, head_bytes, lead_bytes};

use crate::piece::{Lead, NewHead, Pieces};

/// How many bytes the shortest head has (RFC 8949, section 3).
pub fn head_size(n: u64) -> usize
    ensures size { (major : ℕ) → result ≡ length (head major n) }
    ensures few { result ≤ 9 }
{
    if n < 24 {
        1
    } else if n < 0x100 {
        2
    } else if n < 0x1_0000 {
        3
    } else if n < 0x1_0000_0000 {
        5
    } else {
        9
    }
}

/// How many bytes a text is spelled in.
pub fn text_size(text: &str) -> u128
    ensures size { result ≡ length (spell_text text.now) }
    ensures few { result ≤ 0x1_0000_0000_0000_0008 }
{
    head_size(text.len() as u64) as u128 + text.len() as u128
}

fn new_head_size(head: NewHead) -> u128
    ensures size { result ≡ length (head_bytes head) }
    ensures few { result ≤ 9 }
{
    match head {
        NewHead::Same => 0,
        NewHead::List(n) => head_size(n) as u128,
        NewHead::Map(n) => head_size(n) as u128,
    }
}

fn lead_size(lead: Lead<'_>) -> u128
    ensures size { result ≡ length (lead_bytes lead.entry) }
    ensures few { result ≤ 0x1_0000_0000_0000_0009 }
{
    match lead {
        Lead::Nothing => 0,
        Lead::Key(key) => text_size(key),
        Lead::Pair(key) => 1 + text_size(key),
    }
}

/// How many bytes the pieces have together.
pub(crate) fn size_of(pieces: &Pieces<'_, '_, '_>) -> u128
    ensures { result ≡ length (bytes_of pieces.now) }
{
    let around = pieces.front.len() as u128 + pieces.behind.len() as u128;
    let parts = pieces.before.len() as u128 + pieces.after.len() as u128;
    around + parts + new_head_size(pieces.head) + lead_size(pieces.lead) + pieces.new.len() as u128
}
