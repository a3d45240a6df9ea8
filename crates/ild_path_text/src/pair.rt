//! The text of pairs of which one is set, comes or goes (IPLD Schemas, "stringpairs").
ghost use Rattle.std.specs.List.{list_all};
ghost use Rattle.std.specs.Prelude.{◌≡◌, ◌<◌, IfOk, List, ℕ, Some, length, option_map, remove, string_bytes};
ghost use Rattle.ild_schema.specs.Joins.{joined};
ghost use Rattle.ild_typed.specs.Texts.{is_parted, join_pairs};
ghost use Rattle.ild_path_text.specs.Changed.{changed, SetsValue, InsertsPair};
ghost use Rattle.ild_path_text.specs.Left.{parts_left};

use crate::PairChange;
use crate::draft::{add_front, add_pair, add_rest, joined_text};
use crate::joints::is_parted;
use crate::left::{before, count_left, entries, first, halves};
use ild_data::Txt;
use ild_typed::pairs_are_pairs;
use std::alloc::{AllocError, Global};

// The pairs of which one has a new value.
fn with_value(
    alloc: Global,
    left: Option<&str>,
    inner: &str,
    entry: &str,
    place: usize,
    new: &str,
) -> Result<String, AllocError>
    requires inner_some { 0 < length inner.now }
    requires entry_some { 0 < length entry.now }
    ensures { SetsValue inner.now entry.now (option_map (λ t. t.now) left.entry) place new.now result }
{
    let mut out = String::new(alloc);
    let Some(rest) = add_front(&mut out, left, entry, place)? else {
        return Ok(out);
    };
    let (old, behind) = first(rest, entry);
    let Some((key, _)) = halves(old, inner) else {
        return Ok(out);
    };
    add_pair(&mut out, inner, entry, place, key, new)?;
    add_rest(&mut out, entry, 1, behind)?;
    Ok(out)
}

// The pairs and another one.
fn with_pair(
    alloc: Global,
    left: Option<&str>,
    inner: &str,
    entry: &str,
    place: usize,
    key: &str,
    new: &str,
) -> Result<String, AllocError>
    requires { 0 < length entry.now }
    ensures { InsertsPair inner.now entry.now (option_map (λ t. t.now) left.entry) place key.now new.now result }
{
    let mut out = String::new(alloc);
    let rest = add_front(&mut out, left, entry, place)?;
    add_pair(&mut out, inner, entry, before(left, place), key, new)?;
    add_rest(&mut out, entry, 1, rest)?;
    Ok(out)
}

// The pairs without one.
fn without_pair(
    alloc: Global,
    left: Option<&str>,
    entry: &str,
    place: usize,
) -> Result<String, AllocError>
    requires { 0 < length entry.now }
    ensures { IfOk result (λ out. string_bytes out ≡ joined entry.now (remove (parts_left entry.now (option_map (λ t. t.now) left.entry)) place)) }
{
    let mut out = String::new(alloc);
    let Some(rest) = add_front(&mut out, left, entry, place)? else {
        return Ok(out);
    };
    let (_, behind) = first(rest, entry);
    add_rest(&mut out, entry, place, behind)?;
    Ok(out)
}

// Whether the inner delimiter first stands behind a key, whatever the value.
fn ends_at_delimiter(alloc: Global, key: &str, inner: &str) -> Result<bool, AllocError>
    requires { 0 < length inner.now }
    ensures { IfOk result (λ b. (value : List ℕ) → is_parted inner.now (key.now, value) ≡ b) }
{
    let mut front = String::new(alloc);
    front.push_str(key)?;
    front.push_str(inner)?;
    Ok(is_parted(front.as_str(), inner, key.len()))
}

/// The text of the pairs of which one is changed; `None` where a key would then not end at the first inner delimiter behind
/// it, or the entry delimiter stand elsewhere than between the pairs (all occurrences count, overlapping ones too). The text is
/// that of some pairs. An error is want of memory.
pub fn change_pair(
    alloc: Global,
    text: &str,
    inner: &str,
    entry: &str,
    change: PairChange<'_>,
) -> Result<Option<Txt>, AllocError>
    requires inner_some { 0 < length inner.now }
    requires entry_some { 0 < length entry.now }
    ensures { (pairs : List (List ℕ × List ℕ)) → join_pairs inner.now entry.now pairs ≡ Some text.now → IfOk result (λ o. o ≡ join_pairs inner.now entry.now (changed change.entry pairs)) }
{
    pairs_are_pairs();
    let left = entries(text);
    let count = count_left(left, entry);
    match change {
        PairChange::Set { place, new } => {
            let out = with_value(alloc, left, inner, entry, place, new)?;
            Ok(joined_text(out, entry, count))
        }
        PairChange::Insert { place, key, new } => {
            if !ends_at_delimiter(alloc, key, inner)? {
                return Ok(None);
            }
            let out = with_pair(alloc, left, inner, entry, place, key, new)?;
            Ok(joined_text(out, entry, count + 1))
        }
        PairChange::Delete { place } => {
            let out = without_pair(alloc, left, entry, place)?;
            let fewer = if place < count { count - 1 } else { count };
            Ok(joined_text(out, entry, fewer))
        }
    }
}
