//! Whole items, read without keeping anything of them.
ghost use Rattle.std.specs.Prelude.{◌≡◌, ◌<◌, None, option_map};
ghost use Rattle.ild_cbor.specs.Reading.{Gives, items_at, members_at, simple_at, body_at, item_at, part_at, rest_of, may_follow};

use crate::fault::{CborKind, Stop, stop_before, stop_short};
use crate::head::{cut, number};
use crate::string::{key, link, text_of};
use ild_data::key_less;

// The bytes behind an item of major type 7.
#[tactic(auto, unfolding(crate::specs::Reading::simple_at))]
fn simple<'b>(from: &'b [u8], low: u8, bytes: &'b [u8]) -> Result<&'b [u8], Stop>
    ensures { Gives (λ x. x.now) result (rest_of (simple_at from.now low bytes.now)) }
{
    match low {
        20 | 21 | 22 => Ok(bytes),
        25 | 26 | 27 => Err(stop_before(CborKind::Float, from)),
        _ => Err(stop_before(CborKind::Simple, from)),
    }
}

/// The bytes behind an item in which containers nest no deeper than there is room.
#[cycle(walk)]
#[tactic(auto, unfolding(crate::specs::Reading::item_by))]
pub(crate) fn item(room: u8, bytes: &[u8]) -> Result<&[u8], Stop>
    ensures { Gives (λ x. x.now) result (rest_of (item_at room bytes.now)) }
{
    match bytes {
        [] => Err(stop_short()),
        [first, rest @ ..] => {
            let major = *first / 32;
            let low = *first % 32;
            if major == 7 {
                return simple(bytes, low, rest);
            }
            let (n, rest) = number(bytes, low, rest)?;
            body(room, bytes, major, n, rest)
        }
    }
}

// The bytes behind the item at `from`, which has this major type and argument.
#[cycle(walk)]
#[tactic(auto, unfolding(crate::specs::Reading::body_at))]
fn body<'b>(room: u8, from: &'b [u8], major: u8, n: u64, bytes: &'b [u8]) -> Result<&'b [u8], Stop>
    requires { major < 7 }
    ensures { Gives (λ x. x.now) result (rest_of (body_at room (part_at room) from.now major n bytes.now)) }
{
    match major {
        0 => Ok(bytes),
        1 => {
            if n >= 0x8000_0000_0000_0000 {
                return Err(stop_before(CborKind::Range, from));
            }
            Ok(bytes)
        }
        2 => {
            let (_, rest) = cut(n, bytes)?;
            Ok(rest)
        }
        3 => {
            let (text, rest) = cut(n, bytes)?;
            match text_of(text) {
                Some(_) => Ok(rest),
                None => Err(stop_before(CborKind::Utf8, from)),
            }
        }
        4 => {
            if room == 0 {
                return Err(stop_before(CborKind::Depth, from));
            }
            items(room, n, bytes)
        }
        5 => {
            if room == 0 {
                return Err(stop_before(CborKind::Depth, from));
            }
            members(room, n, bytes)
        }
        _ => {
            if n != 42 {
                return Err(stop_before(CborKind::Tag, from));
            }
            link(from, bytes)
        }
    }
}

// The bytes behind n items of a list with this much room.
#[cycle(walk)]
fn items(room: u8, n: u64, bytes: &[u8]) -> Result<&[u8], Stop>
    requires { 0 < room }
    ensures { Gives (λ x. x.now) result (rest_of (items_at (part_at room) n bytes.now)) }
{
    let mut rest = bytes;
    for _ in 0..n {
        rest = item(room - 1, rest)?;
    }
    Ok(rest)
}

// Whether a key may stand behind the one before it.
fn in_order(before: Option<&str>, key: &str) -> bool
    ensures { result ≡ may_follow (option_map (λ k. k.now) before.entry) key.now }
{
    match before {
        Some(before) => key_less(before, key),
        None => true,
    }
}

// The bytes behind n entries of a map with this much room.
#[cycle(walk)]
fn members<'b>(room: u8, n: u64, bytes: &'b [u8]) -> Result<&'b [u8], Stop>
    requires { 0 < room }
    ensures { Gives (λ x. x.now) result (rest_of (members_at (part_at room) None n bytes.now)) }
{
    let mut before: Option<&'b str> = None;
    let mut rest = bytes;
    for _ in 0..n {
        let (next, value) = key(rest)?;
        if !in_order(before, next) {
            return Err(stop_before(CborKind::KeyOrder, rest));
        }
        before = Some(next);
        rest = item(room - 1, value)?;
    }
    Ok(rest)
}
