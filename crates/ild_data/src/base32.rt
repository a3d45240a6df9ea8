//! Base32 (RFC 4648, section 6) in lower case and without padding.
ghost use Rattle.std.specs.Prelude.{◌≡◌, List, ℕ, ◌+◌, ◌<◌, ◌≤◌, ◌⊎◌, ◌++◌, OnOk, IfOk, IfErr, IfSome, length, string_bytes};
ghost use Rattle.ild_data.specs.Base32.{bits, letter, letters, base32, bytes_bits};
ghost use Rattle.ild_data.specs.Bytes.{AreBytes};
ghost use Rattle.ild_data.specs.CidTextRead.{number_of, read_base32};

use crate::TextErr;
use crate::bits::Bits;
use std::alloc::{AllocError, Global};

/// The letter of a number below 32.
fn letter_of(number: u8) -> char
    requires { number < 32 }
    ensures same { result ≡ letter number }
    ensures ascii { result < 128 }
{
    char::from(if number < 26 {
        b'a' + number
    } else {
        b'2' + (number - 26)
    })
}

/// Appends the letter of the first five bits.
fn push_letter(out: &mut String, held: &mut Bits) -> Result<(), AllocError>
    requires { 5 ≤ length held.old }
    ensures text { OnOk result ((rest : List ℕ) → string_bytes out.new ++ letters (held.new ++ rest) ≡ string_bytes out.old ++ letters (held.old ++ rest)) }
    ensures len { length held.new + 5 ≡ length held.old }
{
    let number = held.pull(5);
    out.push(letter_of(number as u8))?;
    Ok(())
}

/// Appends the letters of the whole groups of five, and leaves the rest.
fn push_letters(out: &mut String, held: &mut Bits) -> Result<(), AllocError>
    ensures text { OnOk result ((rest : List ℕ) → string_bytes out.new ++ letters (held.new ++ rest) ≡ string_bytes out.old ++ letters (held.old ++ rest)) }
    ensures left { OnOk result (length held.new < 5) }
{
    while held.len() >= 5 {
        push_letter(out, held)?;
    }
    Ok(())
}

/// Appends the base32 of bytes.
pub(crate) fn push_base32(out: &mut String, bytes: &[u8]) -> Result<(), AllocError>
    ensures { OnOk result (string_bytes out.new ≡ string_bytes out.old ++ base32 bytes.now) }
{
    let mut held = Bits::new();
    for byte in bytes {
        held.push(8, u32::from(*byte));
        push_letters(out, &mut held)?;
    }
    let left = held.len();
    if left > 0 {
        held.push(5 - left, 0);
        push_letter(out, &mut held)?;
    }
    Ok(())
}

/// The number of a letter.
#[tactic(auto, unfolding(crate::specs::CidTextRead::number_of))]
fn number_of(letter: u8) -> Option<u8>
    ensures same { result ≡ number_of letter }
    ensures small { IfSome result (λ n. n < 32) }
{
    match letter {
        b'a'..=b'z' => Some(letter - b'a'),
        b'2'..=b'7' => Some(letter - b'2' + 26),
        _ => None,
    }
}

/// Puts the bits of a letter's number behind the others, and appends the byte that is whole.
fn push_number(out: &mut Vec<u8>, held: &mut Bits, number: u8) -> Result<(), AllocError>
    requires small { number < 32 }
    requires short { length held.old < 8 }
    ensures bits { OnOk result ((rest : List ℕ) → bytes_bits out.new.items ++ (held.new ++ rest) ≡ bytes_bits out.old.items ++ (held.old ++ (bits 5 number ++ rest))) }
    ensures short { OnOk result (length held.new < 8) }
    ensures bytes { OnOk result (AreBytes out.old.items → AreBytes out.new.items) }
{
    held.push(5, u32::from(number));
    if held.len() >= 8 {
        out.push(held.pull(8) as u8)?;
    }
    Ok(())
}

/// The bytes of a base32 text, in one allocation.
pub(crate) fn read_base32(alloc: Global, letters: &[u8]) -> Result<Vec<u8>, TextErr>
    ensures bytes { IfOk result (λ v. read_base32 letters.now ≡ Ok v.items) }
    ensures fault { IfErr result (λ e. (e ≡ TextErr.Memory) ⊎ (read_base32 letters.now ≡ Err e)) }
{
    let mut out = Vec::with_capacity(alloc, letters.len() / 8 * 5 + 5)?;
    let mut held = Bits::new();
    for letter in letters {
        let Some(number) = number_of(*letter) else {
            return Err(TextErr::Digit);
        };
        push_number(&mut out, &mut held, number)?;
    }
    if held.is_filling() {
        Ok(out)
    } else {
        Err(TextErr::Bits)
    }
}
