//! The value at a key among entries that were checked before.
ghost use Rattle.std.specs.Prelude.{◌≡◌, ◌<◌, ◌^◌, List, ℕ, ◌++◌, length, option_map, [], IsUtf8};
ghost use Rattle.ild_data.specs.Data.{Members};
ghost use Rattle.ild_data.specs.Spell.{spell_text};
ghost use Rattle.ild_data.specs.Key.{same_text};
ghost use Rattle.ild_cbor.specs.inside.Row.{IsEntryRow};
ghost use Rattle.ild_cbor.specs.inside.Search.{CutsAtKey};

use crate::head::split;
use crate::skip::skip;
use crate::start::Start;

/// The key at the front of the bytes, and the bytes from its value on.
pub(crate) fn first_key(entries: &[u8]) -> (&[u8], &[u8])
    ensures key { (k x : List ℕ) → length k < 2 ^ 64 → entries.now ≡ spell_text k ++ x → result.0.now ≡ k }
    ensures value { (k x : List ℕ) → length k < 2 ^ 64 → entries.now ≡ spell_text k ++ x → result.1.now ≡ x }
{
    let start = Start::of(entries);
    match split(start.argument, start.rest) {
        Some(parts) => parts,
        None => (start.rest, start.rest),
    }
}

fn same(a: &str, b: &[u8]) -> bool
    ensures { result ≡ same_text a.now b.now }
{
    a.as_bytes() == b
}

/// The bytes from the value at a key on, where there is one among these `n` entries.
pub(crate) fn value_from<'b>(entries: &'b [u8], n: u64, key: &str) -> Option<&'b [u8]>
    ensures { (ms : Members) → IsEntryRow entries.now n ms [] → CutsAtKey entries.now (option_map (λ v. v.now) result) key.now ms }
{
    let mut rest = entries;
    for _ in 0..n {
        let (found, value) = first_key(rest);
        if found.len() > key.len() {
            return None;
        }
        if same(key, found) {
            return Some(value);
        }
        rest = skip(value, 1);
    }
    None
}
