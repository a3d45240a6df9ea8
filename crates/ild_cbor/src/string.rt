//! Texts, byte strings, keys and links.
ghost use Rattle.std.specs.Prelude.{◌≡◌, true, false, MatchOption};
ghost use Rattle.std.specs.Str.{is_utf8};
ghost use Rattle.ild_data.specs.CidRead.{is_cid};
ghost use Rattle.ild_cbor.specs.Reading.{Gives, string_at, key_at, link_at, is_link, rest_of};

use crate::fault::{CborKind, Stop, stop_before, stop_short};
use crate::head::{cut, number};
use ild_data::CidRef;

/// The bytes as text, where they are UTF-8.
pub(crate) fn text_of(bytes: &[u8]) -> Option<&str>
    ensures { MatchOption result (is_utf8 bytes.now ≡ false) (λ s. (s.now ≡ bytes.now) × (is_utf8 bytes.now ≡ true)) }
{
    match str::from_utf8(bytes) {
        Ok(text) => Some(text),
        Err(_) => None,
    }
}

/// A string of this major type, and the bytes behind it.
#[tactic(auto, unfolding(crate::specs::Reading::string_at))]
pub(crate) fn string(major: u8, other: Stop, bytes: &[u8]) -> Result<(&[u8], &[u8]), Stop>
    ensures { Gives (λ x. (x.0.now, x.1.now)) result (string_at major other bytes.now) }
{
    match bytes {
        [] => Err(stop_short()),
        [first, rest @ ..] => {
            if *first / 32 != major {
                return Err(other);
            }
            let (n, rest) = number(bytes, *first % 32, rest)?;
            cut(n, rest)
        }
    }
}

/// A key, and the bytes behind it.
#[tactic(auto, unfolding(crate::specs::Reading::key_at))]
pub(crate) fn key(bytes: &[u8]) -> Result<(&str, &[u8]), Stop>
    ensures { Gives (λ x. (x.0.now, x.1.now)) result (key_at bytes.now) }
{
    let (key, rest) = string(3, stop_before(CborKind::KeyKind, bytes), bytes)?;
    match text_of(key) {
        Some(text) => Ok((text, rest)),
        None => Err(stop_before(CborKind::Utf8, bytes)),
    }
}

fn has_cid_form(bytes: &[u8]) -> bool
    ensures { result ≡ is_cid bytes.now }
{
    CidRef::read(bytes).is_ok()
}

/// Whether the byte string of a link is a byte 00 and a CID.
fn links(bytes: &[u8]) -> bool
    ensures { result ≡ is_link bytes.now }
{
    match bytes {
        [] => false,
        [first, cid @ ..] => *first == 0 && has_cid_form(cid),
    }
}

/// The bytes behind the link at `from`, whose tag is read.
#[tactic(auto, unfolding(crate::specs::Reading::link_at))]
pub(crate) fn link<'b>(from: &'b [u8], bytes: &'b [u8]) -> Result<&'b [u8], Stop>
    ensures { Gives (λ x. x.now) result (rest_of (link_at from.now bytes.now)) }
{
    let fault = stop_before(CborKind::Link, from);
    let (cid, rest) = string(2, fault, bytes)?;
    if !links(cid) {
        return Err(fault);
    }
    Ok(rest)
}
