//! Where a delimiter occurs in a text.
ghost use Rattle.std.specs.Prelude.{◌≡◌, ◌<◌, ◌≤◌, ◌∷◌, List, ℕ, true, IfErr, IfOk, is_some, length, option_map, slice_get};
ghost use Rattle.ild_schema.specs.Joins.{IsJoin, Overlap};
ghost use Rattle.ild_text.specs.Cut.{cut, halves};
ghost use Rattle.ild_text.specs.inside.Find.{FindsText};
ghost use Rattle.ild_text.specs.Pairs.{are_keyed, entries};

use crate::Split;
use memchr::memmem;

/// The first place, from one on, at which the text begins with the delimiter.
fn next(text: &str, delim: &str, from: usize) -> Option<usize>
    requires within { from ≤ length text.now }
    requires some { 0 < length delim.now }
    ensures { FindsText delim.now text.now from result }
{
    let bytes = text.as_bytes();
    match memmem::find(&bytes[from..], delim.as_bytes()) {
        Some(i) => Some(from + i),
        None => None,
    }
}

/// How many parts the delimiter cuts the text into. It fails where two occurrences overlap.
pub fn count_parts(text: &str, delim: &str) -> Result<usize, Split>
    requires { 0 < length delim.now }
    ensures parts { IfOk result (λ n. IsJoin delim.now (cut delim.now text.now) text.now × (length (cut delim.now text.now) ≡ n)) }
    ensures overlap { IfErr result (λ e. (e ≡ Split.Delimiter) × Overlap delim.now text.now) }
{
    let mut count = 1;
    let mut from = 0;
    let mut free = 0;
    while let Some(at) = next(text, delim, from) {
        if at < free {
            return Err(Split::Delimiter);
        }
        count += 1;
        free = at + delim.len();
        from = at + 1;
    }
    Ok(count)
}

/// What stands before the first delimiter, and what stands behind it.
pub fn halves<'b>(text: &'b str, delim: &str) -> Option<(&'b str, &'b str)>
    requires { 0 < length delim.now }
    ensures { option_map (λ h. (h.0.now, h.1.now)) result ≡ halves delim.now text.now }
{
    text.split_once(delim)
}

/// The part at a place of those into which the delimiter cuts the text, or `None` past the last.
pub fn part_at<'b>(text: &'b str, delim: &str, i: usize) -> Option<&'b str>
    requires { 0 < length delim.now }
    ensures { option_map (λ part. part.now) result ≡ slice_get (cut delim.now text.now) i }
{
    let mut rest = text;
    for _ in 0..i {
        match halves(rest, delim) {
            Some((_, behind)) => rest = behind,
            None => return None,
        }
    }
    match halves(rest, delim) {
        Some((part, _)) => Some(part),
        None => Some(rest),
    }
}

/// Whether the delimiter occurs in the text.
fn has(text: &str, delim: &str) -> bool
    requires { 0 < length delim.now }
    ensures { result ≡ is_some (halves delim.now text.now) }
{
    halves(text, delim).is_some()
}

/// Whether an inner delimiter occurs in each of the entries into which the entry delimiter cuts the text.
pub fn are_keyed(text: &str, inner: &str, entry: &str) -> bool
    requires inner_some { 0 < length inner.now }
    requires entry_some { 0 < length entry.now }
    ensures { result ≡ are_keyed inner.now (cut entry.now text.now) }
{
    let mut rest = text;
    while let Some((first, behind)) = halves(rest, entry) {
        if !has(first, inner) {
            return false;
        }
        rest = behind;
    }
    has(rest, inner)
}

/// The first entry, and the text of the entries behind it, which is empty where there is none.
pub fn first_entry<'b>(text: &'b str, entry: &str) -> (&'b str, &'b str)
    requires { 0 < length entry.now }
    ensures { (inner : List ℕ) → 0 < length text.now → are_keyed inner (entries entry.now text.now) ≡ true → entries entry.now text.now ≡ result.0.now ∷ entries entry.now result.1.now }
{
    match halves(text, entry) {
        Some(cut) => cut,
        None => (text, ""),
    }
}
