//! A text that is made part by part.
ghost use Rattle.std.specs.Prelude.{◌≡◌, ◌<◌, ◌++◌, [], IfOk, List, ℕ, OnOk, drop, length, option_map, string_bytes, take};
ghost use Rattle.ild_schema.specs.Joins.{joined, pair_text};
ghost use Rattle.ild_typed.specs.Texts.{join};
ghost use Rattle.ild_path_text.specs.Left.{between, parts_left, tail};

use crate::joints::is_joined;
use crate::left::first;
use ild_data::Txt;
use std::alloc::AllocError;

/// Appends what stands before a part that has so many parts before it, and the part.
pub(crate) fn add_part(
    out: &mut String,
    delim: &str,
    count: usize,
    part: &str,
) -> Result<(), AllocError>
    ensures { OnOk result (string_bytes out.new ≡ string_bytes out.old ++ (between delim.now count ++ part.now)) }
{
    if count > 0 {
        out.push_str(delim)?;
    }
    out.push_str(part)
}

/// Appends a pair that has so many pairs before it.
pub(crate) fn add_pair(
    out: &mut String,
    inner: &str,
    entry: &str,
    count: usize,
    key: &str,
    value: &str,
) -> Result<(), AllocError>
    ensures { OnOk result (string_bytes out.new ≡ string_bytes out.old ++ (between entry.now count ++ pair_text inner.now (key.now, value.now))) }
{
    add_part(out, entry, count, key)?;
    out.push_str(inner)?;
    out.push_str(value)
}

/// Appends the parts that are left behind so many.
pub(crate) fn add_rest(
    out: &mut String,
    delim: &str,
    count: usize,
    rest: Option<&str>,
) -> Result<(), AllocError>
    ensures { OnOk result (string_bytes out.new ≡ string_bytes out.old ++ tail delim.now count (option_map (λ t. t.now) rest.entry)) }
{
    match rest {
        Some(text) => add_part(out, delim, count, text),
        None => Ok(()),
    }
}

/// Appends so many parts from the first on, or all where there are fewer, and answers what is left.
pub(crate) fn add_front<'b>(
    out: &mut String,
    left: Option<&'b str>,
    delim: &str,
    place: usize,
) -> Result<Option<&'b str>, AllocError>
    requires some { 0 < length delim.now }
    requires empty { string_bytes out.old ≡ [] }
    ensures front { OnOk result (string_bytes out.new ≡ joined delim.now (take place (parts_left delim.now (option_map (λ t. t.now) left.entry)))) }
    ensures back { IfOk result (λ rest. parts_left delim.now (option_map (λ t. t.now) rest) ≡ drop place (parts_left delim.now (option_map (λ t. t.now) left.entry))) }
{
    let mut rest = left;
    for i in 0..place {
        let Some(text) = rest else {
            return Ok(None);
        };
        let (part, behind) = first(text, delim);
        add_part(out, delim, i, part)?;
        rest = behind;
    }
    Ok(rest)
}

/// The text that was made of so many parts, unless a delimiter stands elsewhere than at the joints.
pub(crate) fn joined_text(out: String, delim: &str, count: usize) -> Option<Txt>
    requires { 0 < length delim.now }
    ensures { (parts : List (List ℕ)) → joined delim.now parts ≡ string_bytes out → length parts ≡ count → result ≡ join delim.now parts }
{
    if is_joined(out.as_str(), delim, count) {
        Some(Txt::from_string(out))
    } else {
        None
    }
}
