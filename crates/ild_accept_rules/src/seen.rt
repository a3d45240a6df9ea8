//! What was seen of the parts of a type: whether a text stands before a part, which names were had, and which numbers.
ghost use Rattle.std.specs.Prelude.{◌≡◌, ◌<◌, ℕ, ℤ, IfOk, IfSome, OnOk, Option, cond, length, true};
ghost use Rattle.std.specs.BTreeSet.{contains};
ghost use Rattle.std.specs.Ordering.{int_cmp, int_eq};
ghost use Rattle.ild_accept_rules.specs.inside.Seen.{is_before, is_one, is_seen};

use std::alloc::AllocError;
use std::collections::BTreeSet;

/// Whether the first part with a text stands before a part.
pub(crate) fn is_before(part: usize, first: Option<usize>) -> bool
    ensures { result ≡ is_before part first }
{
    match first {
        Some(other) => other < part,
        None => false,
    }
}

/// Marks the first part that has a name. The answer tells whether it was marked.
pub(crate) fn see_first(marks: &mut [bool], first: Option<usize>) -> bool
    requires { IfSome first (λ part. part < length marks.old) }
    ensures was { result ≡ is_seen marks.old first }
    ensures size { length marks.new ≡ length marks.old }
    ensures seen { (o : Option ℕ) → is_seen marks.new o ≡ cond (is_one o first) true (is_seen marks.old o) }
{
    match first {
        None => false,
        Some(part) => {
            let was = marks[part];
            marks[part] = true;
            was
        }
    }
}

/// Puts a number into a set. The answer tells whether it was there.
pub(crate) fn see_number(seen: &mut BTreeSet<i128>, number: i128) -> Result<bool, AllocError>
    ensures was { IfOk result (λ b. b ≡ contains int_cmp seen.old number) }
    ensures seen { OnOk result ((q : ℤ) → contains int_cmp seen.new q ≡ cond (int_eq q number) true (contains int_cmp seen.old q)) }
{
    let was = seen.contains(&number);
    seen.insert(number)?;
    Ok(was)
}
