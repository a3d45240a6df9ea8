//! A text that is pairs of a key and a value.
ghost use Rattle.std.specs.Prelude.{◌≡◌, ◌<◌, ◌∷◌, [], ◌↔◌, Err, IfOk, IsOk, List, MatchOption, OnOk, length, option_map, slice_get, true, ℕ};
ghost use Rattle.ild_schema.specs.Joins.{IsPairs, Overlap};
ghost use Rattle.ild_text.specs.Pairs.{are_keyed, entries, pairs_of};
ghost use Rattle.ild_text.specs.Parts.{pairs_in};

use crate::place::{are_keyed, count_parts, first_entry, halves, part_at};
use crate::{PairParts, Split};

/// How many pairs the text is.
fn count_pairs(text: &str, inner: &str, entry: &str) -> Result<usize, Split>
    requires inner_some { 0 < length inner.now }
    requires entry_some { 0 < length entry.now }
    ensures counted { IfOk result (λ n. n ≡ length (entries entry.now text.now)) }
    ensures keyed { OnOk result (are_keyed inner.now (entries entry.now text.now) ≡ true) }
    ensures pairs { OnOk result (IsPairs inner.now entry.now (pairs_of inner.now entry.now text.now) text.now) }
    ensures complete { (ps : List (List ℕ × List ℕ)) → IsPairs inner.now entry.now ps text.now → IsOk result }
    ensures overlap { (result ≡ Err Split.Delimiter) ↔ Overlap entry.now text.now }
{
    if text.is_empty() {
        return Ok(0);
    }
    let count = count_parts(text, entry)?;
    if are_keyed(text, inner, entry) {
        Ok(count)
    } else {
        Err(Split::Parts)
    }
}

/// The pairs of a text.
pub fn pairs<'b>(text: &'b str, inner: &'b str, entry: &'b str) -> Result<PairParts<'b>, Split>
    requires inner_some { 0 < length inner.now }
    requires entry_some { 0 < length entry.now }
    ensures pairs { IfOk result (λ split. IsPairs inner.now entry.now (pairs_in split) text.now) }
    ensures complete { (ps : List (List ℕ × List ℕ)) → IsPairs inner.now entry.now ps text.now → IsOk result }
    ensures overlap { (result ≡ Err Split.Delimiter) ↔ Overlap entry.now text.now }
{
    let count = count_pairs(text, inner, entry)?;
    Ok(PairParts {
        text,
        inner,
        entry,
        count,
    })
}

impl<'b> PairParts<'b> {
    /// How many pairs there are.
    pub fn len(&self) -> usize
        ensures { result ≡ length (pairs_in self.now) }
    {
        self.count
    }

    /// The pair at a place, or `None` past the last.
    pub fn get(&self, i: usize) -> Option<(&'b str, &'b str)>
        ensures { option_map (λ pair. (pair.0.now, pair.1.now)) result ≡ slice_get (pairs_in self.now) i }
    {
        halves(part_at(self.text, self.entry, i)?, self.inner)
    }

    /// The first pair and the pairs behind it, or `None` where there is none: all pairs are gone through so in one walk.
    pub fn split_first(&self) -> Option<((&'b str, &'b str), PairParts<'b>)>
        ensures { MatchOption result (pairs_in self.now ≡ []) (λ r. pairs_in self.now ≡ (r.0.0.now, r.0.1.now) ∷ pairs_in r.1) }
    {
        if self.count == 0 {
            return None;
        }
        let (first, behind) = first_entry(self.text, self.entry);
        let pair = halves(first, self.inner)?;
        Some((
            pair,
            PairParts {
                text: behind,
                inner: self.inner,
                entry: self.entry,
                count: self.count - 1,
            },
        ))
    }
}
