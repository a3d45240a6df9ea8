//! What texts and numbers mean.
ghost use Rattle.std.specs.Prelude.{◌≡◌, ◌^◌, IfOk, Some, None, IsUtf8, nat_lt, if◌then◌else◌, string_bytes, false, pos};
ghost use Rattle.std.specs.Str.{chars, encode_utf8_all};
ghost use Rattle.ild_data.specs.Decimal.{decimal_of};
ghost use Rattle.ild_parse_grammar.specs.Value.{unescaped};

use ild_data::{Int, Txt, decimal_of};
use std::alloc::{AllocError, Global};

/// The bytes as a text of its own.
pub(crate) fn txt_of(alloc: Global, bytes: &[u8]) -> Result<Txt, AllocError>
    requires { ∥ IsUtf8 bytes.now ∥₁ }
    ensures { IfOk result (λ t. t ≡ bytes.now) }
{
    match str::from_utf8(bytes) {
        Ok(text) => Txt::of(alloc, text),
        Err(_) => unreachable!(),
    }
}

/// The characters without the backslashes of escapes.
fn characters(alloc: Global, inside: &str) -> Result<String, AllocError>
    ensures { IfOk result (λ s. string_bytes s ≡ encode_utf8_all (unescaped false (chars inside.now))) }
{
    let mut text = String::new(alloc);
    let mut behind = false;
    for c in inside.chars() {
        if behind {
            text.push(c)?;
            behind = false;
        } else if c == '\\' {
            behind = true;
        } else {
            text.push(c)?;
        }
    }
    Ok(text)
}

/// What the bytes between two quotes mean.
pub(crate) fn unescaped(alloc: Global, inside: &[u8]) -> Result<Txt, AllocError>
    requires { ∥ IsUtf8 inside.now ∥₁ }
    ensures { IfOk result (λ t. t ≡ encode_utf8_all (unescaped false (chars inside.now))) }
{
    match str::from_utf8(inside) {
        Ok(inside) => {
            let text = characters(alloc, inside)?;
            Txt::of(alloc, text.as_str())
        }
        Err(_) => unreachable!(),
    }
}

/// The integer of a number, where it has no leading zeros and is one of a block.
pub(crate) fn number_of(bytes: &[u8]) -> Option<Int>
    ensures { result ≡ decimal_of bytes.now }
{
    Int::new(decimal_of(bytes)?)
}
