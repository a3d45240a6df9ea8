//! The rule on the prefixes of unions, by which a text or bytes tell their member.
ghost use Rattle.std.specs.Prelude.{◌≡◌, ◌++◌, [], ◌∷◌, ◌||◌, IfOk, ℕ, List, IfErr, OnOk, Ok, false, length, true};
ghost use Rattle.std.specs.List.{list_any};
ghost use Rattle.std.specs.Option.{option_map_or};
ghost use Rattle.ild_schema.specs.Delimiters.{is_empty};
ghost use Rattle.ild_schema.specs.Places.{first_beside};
ghost use Rattle.ild_schema.specs.Prefixes.{prefix_fails, prefix_fault, prefix_of, touch};
ghost use Rattle.ild_accept_rules.specs.inside.Ordered.{IsApart, IsBetween, prefix_cmp};
ghost use Rattle.ild_accept_rules.specs.inside.Seen.{with_prefix};

use crate::hex::bytes_of_hex;
use ild_data::{Octets, Txt};
use ild_schema::{Mark, Member, TypeDef, UnionDef, UnionForm};
use std::alloc::{AllocError, Global};
use std::cmp::Ordering;

/// The prefix of a member, if it has one.
fn prefix_of(alloc: Global, form: &UnionForm, member: &Member) -> Result<Option<Octets>, AllocError>
    ensures { IfOk result (λ prefix. prefix ≡ prefix_of form.now member.now) }
{
    match (form, &member.mark) {
        (UnionForm::StringPrefix, Mark::Text(text)) => {
            Ok(Some(Octets::of(alloc, text.as_str().as_bytes())?))
        }
        (UnionForm::BytesPrefix, Mark::Text(text)) => {
            bytes_of_hex(alloc, text.as_str().as_bytes())
        }
        _ => Ok(None),
    }
}

/// How two prefixes stand to each other: by the first byte in which they differ, and equal where one begins the other.
fn order(a: &[u8], b: &[u8]) -> Ordering
    ensures { result ≡ prefix_cmp a.now b.now }
{
    let mut rest = a;
    let mut other = b;
    loop {
        match rest {
            [] => return Ordering::Equal,
            [x, xs @ ..] => match other {
                [] => return Ordering::Equal,
                [y, ys @ ..] => {
                    if *x < *y {
                        return Ordering::Less;
                    }
                    if *y < *x {
                        return Ordering::Greater;
                    }
                    rest = xs;
                    other = ys;
                }
            },
        }
    }
}

/// A prefix that begins with another or begins it, or else the place for another among those that were seen.
fn place_of(seen: &[Octets], prefix: &[u8]) -> Result<usize, usize>
    requires { IsApart seen.now }
    ensures found { IfOk result (λ _. list_any (touch prefix.now) seen.now ≡ true) }
    ensures absent { IfErr result (λ _. list_any (touch prefix.now) seen.now ≡ false) }
    ensures between { IfErr result (λ i. IsBetween prefix.now seen.now i) }
{
    seen.binary_search_by(|other| order(other.as_slice(), prefix))
}

/// Whether a prefix is empty, or touches one that was seen. One that doesn't is seen from then on.
fn put_prefix(seen: &mut Vec<Octets>, prefix: Octets) -> Result<bool, AllocError>
    requires { IsApart seen.old.items }
    ensures answer { IfOk result (λ b. b ≡ is_empty prefix || list_any (touch prefix) seen.old.items) }
    ensures apart { OnOk result (IsApart seen.new.items) }
    ensures seen { result ≡ Ok false → (q : List ℕ) → list_any (touch q) seen.new.items ≡ list_any (touch q) (seen.old.items ++ prefix ∷ []) }
{
    if prefix.as_slice().is_empty() {
        return Ok(true);
    }
    match place_of(seen, prefix.as_slice()) {
        Ok(_) => Ok(true),
        Err(i) => {
            seen.insert(i, prefix)?;
            Ok(false)
        }
    }
}

/// Whether the prefix of a member touches one that was seen. One that doesn't is seen from then on.
fn meets(
    alloc: Global,
    seen: &mut Vec<Octets>,
    form: &UnionForm,
    member: &Member,
) -> Result<bool, AllocError>
    requires { IsApart seen.old.items }
    ensures answer { IfOk result (λ b. b ≡ option_map_or (λ prefix. is_empty prefix || list_any (touch prefix) seen.old.items) (prefix_of form.now member.now) false) }
    ensures apart { OnOk result (IsApart seen.new.items) }
    ensures seen { result ≡ Ok false → (q : List ℕ) → list_any (touch q) seen.new.items ≡ list_any (touch q) (with_prefix seen.old.items (prefix_of form.now member.now)) }
{
    match prefix_of(alloc, form, member)? {
        None => Ok(false),
        Some(prefix) => put_prefix(seen, prefix),
    }
}

fn prefix_again(
    alloc: Global,
    form: &UnionForm,
    members: &[Member],
) -> Result<Option<usize>, AllocError>
    ensures { IfOk result (λ place. place ≡ first_beside (prefix_fails form.now) (λ m. m.at) [] members.now) }
{
    let mut seen = Vec::new(alloc);
    for member in members {
        if meets(alloc, &mut seen, form, member)? {
            return Ok(Some(member.at));
        }
    }
    Ok(None)
}

fn prefix_in_union(alloc: Global, def: &UnionDef) -> Result<Option<usize>, AllocError>
    ensures { IfOk result (λ place. place ≡ first_beside (prefix_fails def.now.form) (λ m. m.at) [] def.now.members) }
{
    prefix_again(alloc, &def.form, def.members.as_slice())
}

/// No prefix of a union is empty, or begins another.
pub fn prefix_fault(alloc: Global, def: &TypeDef) -> Result<Option<usize>, AllocError>
    ensures { IfOk result (λ place. place ≡ prefix_fault def.now) }
{
    match def {
        TypeDef::Union(u) => prefix_in_union(alloc, u),
        _ => Ok(None),
    }
}
