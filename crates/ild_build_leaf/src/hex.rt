//! The prefixes of bytes, in hexadecimal, and the bytes of a spelling.
ghost use Rattle.std.specs.Prelude.{◌≡◌, ◌++◌, List, ℕ, OnOk, Some};
ghost use Rattle.ild_data.specs.Spell.{spell_bytes};
ghost use Rattle.ild_data.specs.Hex.{bytes_of_hex};

use ild_data::hex_byte;
use std::alloc::AllocError;

/// Appends the bytes of a text in hexadecimal, if it is one.
pub fn add_hex(out: &mut Vec<u8>, text: &[u8]) -> Result<(), AllocError>
    ensures { (s : List ℕ) → bytes_of_hex text.now ≡ Some s → OnOk result (out.new.items ≡ out.old.items ++ s) }
{
    let mut rest = text;
    while let [a, b, more @ ..] = rest {
        match hex_byte(*a, *b) {
            None => return Ok(()),
            Some(byte) => out.push(byte)?,
        }
        rest = more;
    }
    Ok(())
}

/// The bytes behind the head of a spelled byte string.
pub fn behind_head(spelled: &[u8]) -> &[u8]
    ensures { (s : List ℕ) → spelled.now ≡ spell_bytes s → result.now ≡ s }
{
    match spelled {
        [0x58, _, bytes @ ..] => bytes,
        [0x59, _, _, bytes @ ..] => bytes,
        [0x5a, _, _, _, _, bytes @ ..] => bytes,
        [0x5b, _, _, _, _, _, _, _, _, bytes @ ..] => bytes,
        [_, bytes @ ..] => bytes,
        [] => &[],
    }
}
