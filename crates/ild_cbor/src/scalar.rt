//! What an item says of itself, by its major type and its argument.
ghost use Rattle.std.specs.Prelude.{◌≡◌, IsUtf8, option_map};
ghost use Rattle.ild_cbor.specs.inside.OfHead.{kind_in, boolean_in, int_in, count_in, string_in};

use crate::kind::Kind;
use ild_data::Int;

pub(crate) fn kind_at(major: u8, argument: u64) -> Kind
    ensures { result ≡ kind_in major argument }
{
    match major {
        0 | 1 => Kind::Int,
        2 => Kind::Bytes,
        3 => Kind::Text,
        4 => Kind::List,
        5 => Kind::Map,
        6 => Kind::Link,
        _ => {
            if argument == 22 {
                Kind::Null
            } else {
                Kind::Bool
            }
        }
    }
}

pub(crate) fn boolean_at(major: u8, argument: u64) -> Option<bool>
    ensures { result ≡ boolean_in major argument }
{
    match (major, argument) {
        (7, 20) => Some(false),
        (7, 21) => Some(true),
        _ => None,
    }
}

pub(crate) fn int_at(major: u8, argument: u64) -> Option<Int>
    ensures { result ≡ int_in major argument }
{
    match major {
        0 => Int::new(argument as i128),
        1 => Int::new(-1 - argument as i128),
        _ => None,
    }
}

pub(crate) fn count_at(major: u8, argument: u64) -> Option<u64>
    ensures { result ≡ count_in major argument }
{
    match major {
        4 | 5 => Some(argument),
        _ => None,
    }
}

pub(crate) fn string_at_major(wanted: u8, major: u8, rest: &[u8]) -> Option<&[u8]>
    ensures { option_map (λ s. s.now) result ≡ string_in wanted major rest.now }
{
    if major == wanted { Some(rest) } else { None }
}

/// Bytes that were found to be UTF-8 before, as text.
pub(crate) fn known_text(bytes: &[u8]) -> &str
    requires { IsUtf8 bytes.now }
    ensures { result.now ≡ bytes.now }
{
    unsafe { str::from_utf8_unchecked(bytes) }
}
