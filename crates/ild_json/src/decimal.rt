//! The integers that decimals write.
ghost use Rattle.std.specs.Prelude.{◌≡◌, ◌≢◌, Some, IfSome, false, slice_index};
ghost use Rattle.serde_json.specs.Data.{unsigned};
ghost use Rattle.serde_json.specs.Find.{of_integer};
ghost use Rattle.serde_json.specs.Read.{number_of};

/// Whether a text begins with a plus.
fn has_plus(text: &str) -> bool
    ensures { result ≡ false → slice_index text.now 0 ≢ 43 }
{
    text.as_bytes().first() == Some(&b'+')
}

/// The number of 64 bits that digits write.
pub(crate) fn natural(text: &str) -> Option<u64>
    ensures { IfSome result (λ n. number_of text.now ≡ Some (unsigned n)) }
{
    match text.parse::<u64>() {
        Ok(n) if !has_plus(text) => Some(n),
        _ => None,
    }
}

/// The number below 0 that a minus and digits write.
pub(crate) fn below_zero(text: &str) -> Option<i64>
    ensures { IfSome result (λ n. number_of text.now ≡ Some (of_integer n)) }
{
    match text.parse::<i64>() {
        Ok(n) if n < 0 => Some(n),
        _ => None,
    }
}
