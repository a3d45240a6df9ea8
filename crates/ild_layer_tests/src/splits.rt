//! Splits of texts, in tables, and of long ones. The expected parts were split by hand. Some delimiters overlap, or stand inside one another: a key that
//! ends as the inner delimiter begins is cut before its end, and a text inside a text keeps its delimiters.
use ild_text::{JoinParts, PairParts, Split, join_parts, pairs};
use std::alloc::{AllocError, Global};
use std::test::Fail;

/// A text and its delimiter; in each further line a part.
const JOINED: [&str; 8] = [
    "x:é: :\nx\né\n\n",
    "aa aa\n\n\n",
    " x\n\n",
    "baab aa\nb\nb\n",
    "x::y :\nx\n\ny\n",
    "éüé ü\né\né\n",
    "abcaba aba\nabc\n\n",
    "aab=1&a=2 aa\n\nb=1&a=2\n",
];

/// A text, its delimiter, how many parts are asked for, and the refusal.
const NOT_JOINED: [&str; 9] = [
    "aaab aa 2 delimiter",
    "aaa=2 aa 2 delimiter",
    "ababa aba 9 delimiter",
    "ababa aba 2 delimiter",
    "x:y : 1 parts",
    "x:y : 3 parts",
    " x 2 parts",
    "aab=aa&a=2 aa 2 parts",
    "aab=1&a=2aa aa 2 parts",
];

/// A text and its two delimiters; in each further line a pair. The inner delimiter may stand in a value, and in no key.
const PAIRED: [&str; 10] = [
    "a=x=y&b= = &\na x=y\nb \n",
    " = &\n",
    "= = &\n \n",
    "kaaaa aa &\nk aa\n",
    "xaaa1 aa &\nx a1\n",
    "é=ü&ü=é = &\né ü\nü é\n",
    "aaaV aa &\n aV\n",
    "xaaaV aa &\nx aV\n",
    "xaaaa aa &\nx aa\n",
    "x=a=b = &\nx a=b\n",
];

const NOT_PAIRED: [&str; 5] = [
    "a=1&&&b=2 = && delimiter",
    "a=1&b = & parts",
    "a=1& = & parts",
    "a=1&&b=2 = & parts",
    "b = & parts",
];

fn word(split: Split) -> &'static str {
    match split {
        Split::Delimiter => "delimiter",
        Split::Parts => "parts",
    }
}

/// Each part by its number, and as the first of those that are left.
fn are_joined(split: JoinParts<'_>, parts: &str) -> Option<bool> {
    let mut left = Some(split);
    let mut number: usize = 0;
    for part in parts.lines() {
        let (first, behind) = left?.split_first();
        if first != part || split.get(number)? != part {
            return None;
        }
        left = behind;
        number = number.saturating_add(1);
    }
    Some(left.is_none() && split.get(number).is_none())
}

fn is_joined(front: &str, parts: &str) -> Option<bool> {
    let (text, delim) = front.split_once(' ')?;
    if delim.is_empty() {
        return None;
    }
    are_joined(join_parts(text, delim, parts.lines().count()).ok()?, parts)
}

fn is_unjoined(row: &str) -> Option<bool> {
    let (text, rest) = row.split_once(' ')?;
    let (delim, rest) = rest.split_once(' ')?;
    let (count, want) = rest.split_once(' ')?;
    if delim.is_empty() {
        return None;
    }
    let count = count.parse::<u32>().ok()? as usize;
    Some(word(join_parts(text, delim, count).err()?) == want)
}

/// Each pair by its number, and as the first of those that are left.
fn are_paired(split: PairParts<'_>, parts: &str) -> Option<bool> {
    let mut left = split;
    let mut number: usize = 0;
    for part in parts.lines() {
        let pair = part.split_once(' ')?;
        let (first, behind) = left.split_first()?;
        if first != pair || split.get(number)? != pair {
            return None;
        }
        left = behind;
        number = number.saturating_add(1);
    }
    Some(left.split_first().is_none() && split.len() == number && split.get(number).is_none())
}

/// The pairs of a text, whose two delimiters stand behind it, with what stands behind these.
fn pairs_of(row: &str) -> Option<(Result<PairParts<'_>, Split>, &str)> {
    let (text, rest) = row.split_once(' ')?;
    let (inner, rest) = rest.split_once(' ')?;
    let (entry, behind) = match rest.split_once('\n') {
        Some(ends) => ends,
        None => rest.split_once(' ')?,
    };
    if inner.is_empty() || entry.is_empty() {
        return None;
    }
    Some((pairs(text, inner, entry), behind))
}

fn is_paired(row: &str) -> Option<bool> {
    match pairs_of(row)? {
        (Ok(split), parts) => are_paired(split, parts),
        (Err(split), want) => Some(word(split) == want),
    }
}

fn is_split(row: &str) -> Option<bool> {
    match row.split_once('\n') {
        Some((front, parts)) => is_joined(front, parts),
        None => is_unjoined(row),
    }
}

fn all_joined(rows: &[&'static str]) -> Result<(), &'static str> {
    for row in rows {
        if is_split(row) != Some(true) {
            return Err(*row);
        }
    }
    Ok(())
}

fn all_paired(rows: &[&'static str]) -> Result<(), &'static str> {
    for row in rows {
        if is_paired(row) != Some(true) {
            return Err(*row);
        }
    }
    Ok(())
}

#[test]
fn texts_are_split_at_each_delimiter(_: HostRuntime) -> Result<(), Fail> {
    all_joined(&JOINED)?;
    all_joined(&NOT_JOINED)?;
    Ok(())
}

#[test]
fn pairs_are_split_at_the_first_inner_delimiter(_: HostRuntime) -> Result<(), Fail> {
    all_paired(&PAIRED)?;
    all_paired(&NOT_PAIRED)?;
    Ok(())
}

/// How many parts the long texts have.
const MANY: usize = 1 << 20;

/// A text of so many copies of a piece.
fn repeated(alloc: Global, piece: &str, count: usize) -> Result<String, AllocError> {
    let mut text = String::new(alloc);
    for _ in 0..count {
        text.push_str(piece)?;
    }
    Ok(text)
}

/// A search that goes back at each joint would not end here.
fn many_parts(alloc: Global) -> Option<bool> {
    let joints = repeated(alloc, "abc:", MANY).ok()?;
    let split = join_parts(joints.as_str(), ":", MANY + 1).ok()?;
    Some(split.get(1)? == "abc" && split.get(MANY)?.is_empty())
}

/// Whether so many pairs are passed one after the other, and none is left.
fn are_passed(split: PairParts<'_>, count: usize) -> Option<bool> {
    let mut left = split;
    for _ in 0..count {
        left = left.split_first()?.1;
    }
    Some(left.len() == 0)
}

fn many_pairs(alloc: Global) -> Option<bool> {
    let mut entries = repeated(alloc, "a=1&", MANY - 1).ok()?;
    entries.push_str("b=2").ok()?;
    let split = pairs(entries.as_str(), "=", "&").ok()?;
    let ends = split.len() == MANY && split.get(MANY - 1)? == ("b", "2");
    Some(ends && are_passed(split, MANY)?)
}

/// Nor one that goes back at each letter of a delimiter.
fn is_whole(text: &str, delim: &str) -> bool {
    !delim.is_empty()
        && join_parts(text, delim, 2).err() == Some(Split::Parts)
        && join_parts(text, delim, 1).is_ok()
}

fn long_delimiters(alloc: Global) -> Option<bool> {
    let letters = repeated(alloc, "a", 1 << 22).ok()?;
    let mut delim = repeated(alloc, "a", 3000).ok()?;
    delim.push_str("b").ok()?;
    Some(is_whole(letters.as_str(), "aaab") && is_whole(letters.as_str(), delim.as_str()))
}

#[test]
fn long_texts_are_split_in_one_walk(rt: HostRuntime) -> Result<(), Fail> {
    let alloc = rt.alloc();
    let parts = many_parts(alloc) == Some(true) && many_pairs(alloc) == Some(true);
    assert!(rt; parts && long_delimiters(alloc) == Some(true));
    Ok(())
}
