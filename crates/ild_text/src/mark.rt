//! What stands behind the prefix of one member.
ghost use Rattle.std.specs.Prelude.{◌≡◌, ◌≤◌, List, MatchOption, length, option_map, ℕ};
ghost use Rattle.ild_data.specs.Hex.{bytes_of_hex};
ghost use Rattle.ild_schema.specs.Marks.{mark_text};
ghost use Rattle.ild_text.specs.Prefix.{bytes_mark, IsBehind, PassesDigits, Strips};

use ild_data::hex_byte;
use ild_schema::Mark;

/// What stands behind the text of a mark.
pub fn behind_text<'b>(text: &'b str, mark: &Mark) -> Option<&'b str>
    ensures { Strips (mark_text mark.now) text.now (option_map (λ rest. rest.now) result) }
{
    match mark {
        Mark::Text(prefix) => text.strip_prefix(prefix.as_str()),
        Mark::Bare | Mark::Kind(_) => None,
    }
}

/// One byte of a prefix is passed over: what stands behind it, and the digits that are left.
fn pass<'b, 'd>(rest: &'b [u8], left: &'d [u8]) -> Option<(&'b [u8], &'d [u8])>
    requires { 2 ≤ length left.now }
    ensures { MatchOption result ((r : List ℕ) → IsBehind (bytes_of_hex left.now) rest.now r → ⊥) (λ p. PassesDigits left.now rest.now p.1.now p.0.now) }
{
    let byte = hex_byte(left[0], left[1])?;
    if rest.is_empty() || rest[0] != byte {
        return None;
    }
    Some((&rest[1..], &left[2..]))
}

/// What stands behind the bytes that hexadecimal digits stand for.
fn behind_digits<'b>(bytes: &'b [u8], digits: &[u8]) -> Option<&'b [u8]>
    ensures { Strips (bytes_of_hex digits.now) bytes.now (option_map (λ rest. rest.now) result) }
{
    let mut rest = bytes;
    let mut left = digits;
    while left.len() >= 2 {
        match pass(rest, left) {
            Some((behind, more)) => {
                rest = behind;
                left = more;
            }
            None => return None,
        }
    }
    if left.is_empty() { Some(rest) } else { None }
}

/// What stands behind the bytes of a mark.
pub fn behind_bytes<'b>(bytes: &'b [u8], mark: &Mark) -> Option<&'b [u8]>
    ensures { Strips (bytes_mark mark.now) bytes.now (option_map (λ rest. rest.now) result) }
{
    match mark {
        Mark::Text(digits) => behind_digits(bytes, digits.as_str().as_bytes()),
        Mark::Bare | Mark::Kind(_) => None,
    }
}
