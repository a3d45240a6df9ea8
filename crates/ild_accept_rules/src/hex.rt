//! Bytes in hexadecimal.
ghost use Rattle.std.specs.Prelude.{◌≡◌, IfOk};
ghost use Rattle.ild_data.specs.Hex.{bytes_of_hex};

use ild_data::{Octets, hex_byte};
use std::alloc::{AllocError, Global};

/// The bytes of a text in hexadecimal, two digits of either case a byte, if it is one.
pub fn bytes_of_hex(alloc: Global, text: &[u8]) -> Result<Option<Octets>, AllocError>
    ensures { IfOk result (λ bytes. bytes ≡ bytes_of_hex text.now) }
{
    let mut bytes = Vec::new(alloc);
    let mut rest = text;
    loop {
        match rest {
            [] => return Ok(Some(Octets::from_vec(bytes))),
            [_] => return Ok(None),
            [a, b, more @ ..] => {
                match hex_byte(*a, *b) {
                    None => return Ok(None),
                    Some(byte) => bytes.push(byte)?,
                }
                rest = more;
            }
        }
    }
}
