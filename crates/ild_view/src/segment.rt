//! Segments of a path that are indices.
ghost use Rattle.std.specs.Prelude.{◌≡◌, ◌≤◌, ◌^◌, ℕ, MatchOption, Some, decimal};
ghost use Rattle.ild_data.specs.Key.{same_text};
ghost use Rattle.ild_typed.specs.Segment.{index_of};

use ild_data::digits_value;
use itoa::Buffer;

// Whether a text is the decimal of a number.
fn is_decimal(text: &str, n: u64) -> bool
    ensures { result ≡ same_text text.now (decimal n) }
{
    let mut buffer = Buffer::new();
    text == buffer.format(n)
}

/// The index that a segment is: a number in decimal without leading zeros. From 2^64 on it is told as none.
pub fn index(segment: &str) -> Option<u64>
    ensures { MatchOption result ((i : ℕ) → index_of segment.now ≡ Some i → 2 ^ 64 ≤ i) (λ i. index_of segment.now ≡ Some i) }
{
    match digits_value(segment.as_bytes()) {
        Some(n) => {
            if is_decimal(segment, n) {
                Some(n)
            } else {
                None
            }
        }
        None => None,
    }
}
