//! Hexadecimal digits, of either case (RFC 4648, "Base 16 Encoding").
ghost use Rattle.std.specs.Prelude.{◌≡◌, ◌<◌, IfSome, is_some};
ghost use Rattle.ild_data.specs.Hex.{bytes_of_hex, hex_byte, hex_digit};

/// The value of a digit.
fn hex_digit(b: u8) -> Option<u8>
    ensures same { result ≡ hex_digit b }
    ensures small { IfSome result (λ d. d < 16) }
{
    match b {
        b'0'..=b'9' => Some(b - b'0'),
        b'A'..=b'F' => Some(b - b'A' + 10),
        b'a'..=b'f' => Some(b - b'a' + 10),
        _ => None,
    }
}

/// The byte of two digits, or `None` where one of them is none.
pub fn hex_byte(a: u8, b: u8) -> Option<u8>
    ensures { result ≡ hex_byte a b }
{
    let high = hex_digit(a)?;
    let low = hex_digit(b)?;
    Some(16 * high + low)
}

/// Whether a text is bytes in hexadecimal: an even number of digits.
pub fn is_hex(text: &[u8]) -> bool
    ensures { result ≡ is_some (bytes_of_hex text.now) }
{
    let mut rest = text;
    while let [a, b, more @ ..] = rest {
        if hex_byte(*a, *b).is_none() {
            return false;
        }
        rest = more;
    }
    rest.is_empty()
}
