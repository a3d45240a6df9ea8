//! A text that is parts with a delimiter between them.
ghost use Rattle.std.specs.Prelude.{◌≡◌, ◌<◌, ◌∷◌, ◌↔◌, IfOk, IsOk, List, ℕ, Err, length, option_map, slice_get};
ghost use Rattle.ild_schema.specs.Joins.{IsJoin, Overlap};
ghost use Rattle.ild_text.specs.Parts.{parts, parts_left};

use crate::place::{count_parts, halves, part_at};
use crate::{JoinParts, Split};

/// The parts of a text, which are so many.
pub fn join_parts<'b>(text: &'b str, delim: &'b str, n: usize) -> Result<JoinParts<'b>, Split>
    requires { 0 < length delim.now }
    ensures join { IfOk result (λ split. IsJoin delim.now (parts split) text.now × (length (parts split) ≡ n)) }
    ensures complete { (ps : List (List ℕ)) → IsJoin delim.now ps text.now → length ps ≡ n → IsOk result }
    ensures overlap { (result ≡ Err Split.Delimiter) ↔ Overlap delim.now text.now }
{
    let count = count_parts(text, delim)?;
    if count == n {
        Ok(JoinParts { text, delim })
    } else {
        Err(Split::Parts)
    }
}

impl<'b> JoinParts<'b> {
    /// The part at a place, or `None` past the last.
    pub fn get(&self, i: usize) -> Option<&'b str>
        ensures { option_map (λ part. part.now) result ≡ slice_get (parts self.now) i }
    {
        part_at(self.text, self.delim, i)
    }

    /// The first part, and the parts behind it where there are any: all parts are gone through so in one walk.
    pub fn split_first(&self) -> (&'b str, Option<JoinParts<'b>>)
        ensures { parts self.now ≡ result.0.now ∷ parts_left result.1 }
    {
        match halves(self.text, self.delim) {
            Some((part, behind)) => (
                part,
                Some(JoinParts {
                    text: behind,
                    delim: self.delim,
                }),
            ),
            None => (self.text, None),
        }
    }
}
