//! The member of a union that stands behind its prefix, in tables.
ghost use Rattle.std.specs.Prelude.{◌≡◌, IfOk, length};

use hex::{decode, encode};
use ild_data::Txt;
use ild_schema::{List, Mark, Member, TypeNo, UnionDef, UnionForm};
use ild_text::{bytes_prefix, prefix};
use std::alloc::{AllocError, Global};
use std::test::Fail;

/// The prefixes of two members, a text, and the member that it stands for with what stands behind its prefix.
const TEXTS: [&str; 4] = [
    "a: b: b:a: => 1 a:",
    "a: b: a: => 0 ",
    "a: b: a => none",
    "a ab abc => 0 bc",
];

/// The same of bytes in hexadecimals.
const BYTES: [&str; 4] = [
    "01 fE0a 01aabb => 0 aabb",
    "01 fE0a fe0a => 1 ",
    "01 fE0a fe => none",
    "0 0g 30 => none",
];

/// A member of a union.
fn member(alloc: Global, name: &str, text: &str) -> Result<Member, AllocError> {
    Ok(Member {
        name: Txt::of(alloc, name)?,
        at: 0,
        ty: TypeNo(0),
        mark: Mark::Text(Txt::of(alloc, text)?),
    })
}

/// A union of two members.
fn union(alloc: Global, one: &str, other: &str, form: UnionForm) -> Result<UnionDef, AllocError>
    ensures { IfOk result (λ def. length def.members ≡ 2) }
{
    let mut members = List::new(alloc);
    members.push(member(alloc, "One", one)?)?;
    members.push(member(alloc, "Other", other)?)?;
    Ok(UnionDef { members, form })
}

/// Whether a member and what stands behind its prefix are told so.
fn is_told(found: Option<(u32, &str)>, want: &str) -> Option<bool> {
    match found {
        Some((number, rest)) => {
            let (digit, behind) = want.split_once(' ')?;
            Some(digit.parse::<u32>().ok()? == number && rest == behind)
        }
        None => Some(want == "none"),
    }
}

fn are_told(alloc: Global, found: Option<(u32, &[u8])>, want: &str) -> Option<bool> {
    let Some((number, rest)) = found else {
        return Some(want == "none");
    };
    let shown = encode(alloc, rest).ok()?;
    is_told(Some((number, shown.as_str())), want)
}

fn is_text(alloc: Global, row: &str) -> Option<bool> {
    let (given, want) = row.split_once(" => ")?;
    let (one, rest) = given.split_once(' ')?;
    let (other, text) = rest.split_once(' ')?;
    let def = union(alloc, one, other, UnionForm::StringPrefix).ok()?;
    is_told(prefix(text, &def), want)
}

fn is_bytes(alloc: Global, row: &str) -> Option<bool> {
    let (given, want) = row.split_once(" => ")?;
    let (one, rest) = given.split_once(' ')?;
    let (other, text) = rest.split_once(' ')?;
    let def = union(alloc, one, other, UnionForm::BytesPrefix).ok()?;
    let bytes = decode(alloc, text).ok()?;
    are_told(alloc, bytes_prefix(&bytes, &def), want)
}

fn all_so(alloc: Global) -> Result<(), &'static str> {
    for row in &TEXTS {
        if is_text(alloc, row) != Some(true) {
            return Err(*row);
        }
    }
    for row in &BYTES {
        if is_bytes(alloc, row) != Some(true) {
            return Err(*row);
        }
    }
    Ok(())
}

#[test]
fn members_stand_behind_their_prefixes(rt: HostRuntime) -> Result<(), Fail> {
    all_so(rt.alloc())?;
    Ok(())
}
