//! The text of parts of which one is set (IPLD Schemas, "stringjoin").
ghost use Rattle.std.specs.Prelude.{◌≡◌, ◌<◌, IfOk, List, ℕ, Some, length, option_map, slice_set, string_bytes};
ghost use Rattle.ild_schema.specs.Joins.{joined};
ghost use Rattle.ild_text.specs.Cut.{cut};
ghost use Rattle.ild_typed.specs.Texts.{join};

use crate::draft::{add_front, add_part, add_rest, joined_text};
use crate::left::first;
use ild_data::Txt;
use ild_typed::joins_are_joins;
use std::alloc::{AllocError, Global};

// The parts with a delimiter between them, wherever it stands.
fn with_part(
    alloc: Global,
    text: &str,
    delimiter: &str,
    place: usize,
    new: &str,
) -> Result<String, AllocError>
    requires { 0 < length delimiter.now }
    ensures { IfOk result (λ out. string_bytes out ≡ joined delimiter.now (slice_set (cut delimiter.now text.now) place new.now)) }
{
    let mut out = String::new(alloc);
    let Some(rest) = add_front(&mut out, Some(text), delimiter, place)? else {
        return Ok(out);
    };
    let (_, behind) = first(rest, delimiter);
    add_part(&mut out, delimiter, place, new)?;
    add_rest(&mut out, delimiter, 1, behind)?;
    Ok(out)
}

/// The text of the same parts but for the one at a place, which is a new one; `None` where the delimiter would then stand
/// elsewhere than between the parts (all occurrences count, overlapping ones too). The text is that of so many parts, and the
/// place is one of theirs. An error is want of memory.
pub fn set_part(
    alloc: Global,
    text: &str,
    delimiter: &str,
    count: usize,
    place: usize,
    new: &str,
) -> Result<Option<Txt>, AllocError>
    requires { 0 < length delimiter.now }
    ensures { (parts : List (List ℕ)) → join delimiter.now parts ≡ Some text.now → length parts ≡ count → place < count → IfOk result (λ o. o ≡ join delimiter.now (slice_set parts place new.now)) }
{
    joins_are_joins();
    let out = with_part(alloc, text, delimiter, place, new)?;
    Ok(joined_text(out, delimiter, count))
}
