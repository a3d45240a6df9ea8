//! The order of map keys (DAG-CBOR, "Map Keys").
ghost use Rattle.std.specs.Prelude.{◌≡◌};
ghost use Rattle.ild_data.specs.Key.{key_cmp, key_less};

use std::cmp::Ordering;

/// How two keys stand: the shorter in UTF-8 bytes is less; of equal length, the bytewise less.
pub fn key_order(a: &str, b: &str) -> Ordering
    ensures { result ≡ key_cmp a.now b.now }
{
    match a.len().cmp(&b.len()) {
        Ordering::Less => Ordering::Less,
        Ordering::Equal => a.cmp(b),
        Ordering::Greater => Ordering::Greater,
    }
}

/// Whether the first key comes before the second.
pub fn key_less(a: &str, b: &str) -> bool
    ensures { result ≡ key_less a.now b.now }
{
    key_order(a, b).is_lt()
}
