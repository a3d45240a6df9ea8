//! What is left of a text of parts: the parts into which a delimiter cuts it, or none.
ghost use Rattle.std.specs.Prelude.{◌≡◌, ◌<◌, ◌≤◌, ◌+◌, ◌∷◌, List, ℕ, length, option_map, take};
ghost use Rattle.ild_text.specs.Cut.{cut, halves};
ghost use Rattle.ild_text.specs.Pairs.{entries};
ghost use Rattle.ild_path_text.specs.Left.{between, parts_left};

/// What stands before the first delimiter, and what stands behind it.
pub(crate) fn halves<'b>(text: &'b str, delim: &str) -> Option<(&'b str, &'b str)>
    requires { 0 < length delim.now }
    ensures { option_map (λ h. (h.0.now, h.1.now)) result ≡ halves delim.now text.now }
{
    text.split_once(delim)
}

/// The first part of a text, and what is left behind it.
pub(crate) fn first<'b>(text: &'b str, delim: &str) -> (&'b str, Option<&'b str>)
    requires { 0 < length delim.now }
    ensures { cut delim.now text.now ≡ result.0.now ∷ parts_left delim.now (option_map (λ t. t.now) result.1) }
{
    match halves(text, delim) {
        Some((part, behind)) => (part, Some(behind)),
        None => (text, None),
    }
}

/// The entries of a text: the empty text has none.
pub(crate) fn entries(text: &str) -> Option<&str>
    ensures { (entry : List ℕ) → parts_left entry (option_map (λ t. t.now) result) ≡ entries entry text.now }
{
    if text.is_empty() { None } else { Some(text) }
}

// How many parts the delimiter cuts a text into.
fn count_parts(text: &str, delim: &str) -> usize
    requires { 0 < length delim.now }
    ensures counted { result ≡ length (cut delim.now text.now) }
    ensures few { result ≤ 9223372036854775808 }
{
    let mut count = 1;
    let mut rest = text;
    while let Some((_, behind)) = halves(rest, delim) {
        count += 1;
        rest = behind;
    }
    count
}

/// How many parts are left.
pub(crate) fn count_left(left: Option<&str>, delim: &str) -> usize
    requires { 0 < length delim.now }
    ensures counted { result ≡ length (parts_left delim.now (option_map (λ t. t.now) left.entry)) }
    ensures few { result ≤ 9223372036854775808 }
{
    match left {
        Some(text) => count_parts(text, delim),
        None => 0,
    }
}

/// A place among the parts that are left, or none where there are none: it tells whether a part stands before it.
pub(crate) fn before(left: Option<&str>, place: usize) -> usize
    ensures { (delim : List ℕ) → between delim result ≡ between delim (length (take place (parts_left delim (option_map (λ t. t.now) left.entry)))) }
{
    match left {
        Some(_) => place,
        None => 0,
    }
}
