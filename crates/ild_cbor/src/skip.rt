//! Passing over items that were checked before, by their heads alone.
ghost use Rattle.std.specs.Prelude.{◌≡◌, ◌<◌, ◌^◌, ℕ, List, ◌++◌, length, ◌≤◌, ◌/◌, ◌%◌, IfSome};
ghost use Rattle.ild_data.specs.Data.{Data, Items, items_list};
ghost use Rattle.ild_data.specs.Spell.{head, spell, spell_items};
ghost use Rattle.ild_data.specs.Tree.{IsTree};
ghost use Rattle.ild_cbor.specs.inside.Passing.{leaf_size_of, passing};
ghost use Rattle.ild_cbor.specs.inside.Row.{IsRow};

use crate::head::split;
use crate::start::Start;

// How many items are the parts of an item, and the bytes from the first of them on.
fn behind(major: u8, argument: u64, rest: &[u8]) -> (u64, &[u8])
    ensures gives { (result.0, result.1.now) ≡ passing major argument rest.now }
    ensures within { length result.1.now ≤ length rest.now }
{
    match major {
        2 | 3 => match split(argument, rest) {
            Some((_, rest)) => (0, rest),
            None => (0, rest),
        },
        4 => (argument, rest),
        5 => (argument.saturating_mul(2), rest),
        6 => (1, rest),
        _ => (0, rest),
    }
}

// How many bytes an item has, where its first byte tells that, and that it has no parts.
#[inline(always)]
fn leaf_size(first: u8) -> Option<usize>
    ensures { result ≡ leaf_size_of (first / 32) (first % 32) }
{
    let low = first % 32;
    if low > 23 {
        return None;
    }
    match first / 32 {
        0 | 1 | 7 => Some(1),
        2 | 3 => Some(1 + low as usize),
        _ => None,
    }
}

// The bytes behind the item at the front, where its first byte tells where they begin.
#[inline(always)]
fn behind_leaf(bytes: &[u8]) -> Option<&[u8]>
    ensures gives { IfSome result (λ tail. (major n : ℕ) (rest : List ℕ) → n < 2 ^ 64 → bytes.now ≡ head major n ++ rest → passing major n rest ≡ (0, tail.now)) }
    ensures within { IfSome result (λ tail. length tail.now < length bytes.now) }
{
    let size = leaf_size(*bytes.first()?)?;
    bytes.get(size..)
}

/// The bytes behind the first `n` of the items that are spelled here.
pub(crate) fn skip(bytes: &[u8], n: u64) -> &[u8]
    ensures { (ds : Items) (rest : List ℕ) → IsRow bytes.now n ds rest → result.now ≡ rest }
{
    let mut rest = bytes;
    let mut left = n;
    while left > 0 {
        if rest.is_empty() {
            return rest;
        }
        if let Some(tail) = behind_leaf(rest) {
            left -= 1;
            rest = tail;
            continue;
        }
        let start = Start::of(rest);
        let (parts, tail) = behind(start.major, start.argument, start.rest);
        left = (left - 1).saturating_add(parts);
        rest = tail;
    }
    rest
}
