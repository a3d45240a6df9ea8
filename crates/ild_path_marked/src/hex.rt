//! The prefixes of bytes, in hexadecimal.
ghost use Rattle.std.specs.Prelude.{◌≡◌, ◌++◌, List, OnOk, Some, length, ℕ};
ghost use Rattle.ild_path_marked.specs.inside.Parts.{hex_bytes};
ghost use Rattle.ild_data.specs.Hex.{bytes_of_hex};

use ild_data::{hex_byte, is_hex};
use ild_emit::Emit;
use std::alloc::AllocError;

/// How many bytes a text is in hexadecimal, and 0 where it is none.
pub(crate) fn hex_count(text: &[u8]) -> usize
    ensures { result ≡ length (hex_bytes text.now) }
{
    if is_hex(text) { text.len() / 2 } else { 0 }
}

// Appends the bytes of a text that is one in hexadecimal. An error may leave the front of them.
fn add_pairs(out: &mut Emit, text: &[u8]) -> Result<(), AllocError>
    ensures { (s : List ℕ) → bytes_of_hex text.now ≡ Some s → OnOk result (out.new ≡ out.old ++ s) }
{
    let mut rest = text;
    while let [a, b, more @ ..] = rest {
        match hex_byte(*a, *b) {
            None => return Ok(()),
            Some(byte) => out.spelled(&[byte])?,
        }
        rest = more;
    }
    Ok(())
}

/// Appends the bytes of a text in hexadecimal, and nothing where it is none. An error may leave the front of them.
pub(crate) fn add_hex(out: &mut Emit, text: &[u8]) -> Result<(), AllocError>
    ensures { OnOk result (out.new ≡ out.old ++ hex_bytes text.now) }
{
    if is_hex(text) {
        add_pairs(out, text)
    } else {
        Ok(())
    }
}
