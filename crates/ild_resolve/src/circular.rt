//! Types that are, through copies, copies of themselves. Walks along copies mark each type once, with the number of the
//! walk, so the time grows as the number of types: a walk that meets its own mark has met such a type.
ghost use Rattle.std.specs.Prelude.{◌≡◌, ◌+◌, ◌<◌, ◌≤◌, Err, IfOk, IfSome, MatchOption, None, Ok, Some, length, ℕ};
ghost use Rattle.ild_schema.specs.Copies.{FirstIsCircular, IsCircular, NoneIsCircular, target_in};
ghost use Rattle.ild_schema.specs.Table.{def_at};
ghost use Rattle.ild_resolve.specs.inside.Marks.{IsClosed, IsLeastOfRound, Sought, Walked, lesser, mark_at};

use ild_schema::{Row, TypeDef};
use std::alloc::{AllocError, Global};

/// The type of which a type is a copy, if it is in the table.
fn next(rows: &[Row], n: u32) -> Option<u32>
    requires { n < length rows.now }
    ensures { MatchOption result ((t : ℕ) → target_in (def_at rows.now n) ≡ Some t → length rows.now ≤ t) (λ t. (t < length rows.now) × (target_in (def_at rows.now n) ≡ Some t)) }
{
    match &rows[n as usize].def {
        TypeDef::Copy(target) if (target.0 as usize) < rows.len() => Some(target.0),
        _ => None,
    }
}

/// Marks the types to which a type leads, up to one that was seen. It gives that one where this walk saw it before.
fn walk(rows: &[Row], marks: &mut [u32], from: u32) -> Option<u32>
    requires same { length marks.old ≡ length rows.now }
    requires within { from < length rows.now }
    requires small { length rows.now ≤ 65543 }
    requires low { (n : ℕ) → n < length rows.now → mark_at marks.old n ≤ from }
    requires closed { IsClosed rows.now marks.old }
    ensures { Walked rows.now marks.old marks.new from (from + 1) result }
{
    let mut at = from;
    while marks[at as usize] == 0 {
        marks[at as usize] = from + 1;
        match next(rows, at) {
            Some(target) => at = target,
            None => return None,
        }
    }
    if marks[at as usize] == from + 1 {
        Some(at)
    } else {
        None
    }
}

/// The least of the types to which a type leads that is a copy of itself.
fn least_of_round(rows: &[Row], from: u32) -> u32
    requires within { from < length rows.now }
    requires circular { IsCircular rows.now from }
    ensures { IsLeastOfRound rows.now from result }
{
    let mut at = from;
    let mut least = from;
    for _ in 0..rows.len() {
        match next(rows, at) {
            None => return least,
            Some(target) => at = target,
        }
        if at == from {
            return least;
        }
        least = least.min(at);
    }
    least
}

/// The lesser of two numbers, where there is a first.
fn lesser(first: Option<u32>, n: u32) -> u32
    ensures { result ≡ lesser first n }
{
    match first {
        None => n,
        Some(m) => m.min(n),
    }
}

/// Walks from a type. It gives the first type that is a copy of itself, of all that were seen.
fn search_from(rows: &[Row], marks: &mut [u32], from: u32, first: Option<u32>) -> Option<u32>
    requires same { length marks.old ≡ length rows.now }
    requires within { from < length rows.now }
    requires small { length rows.now ≤ 65543 }
    requires so_far { Sought rows.now marks.old from first }
    ensures { Sought rows.now marks.new (from + 1) result }
{
    match walk(rows, marks, from) {
        None => first,
        Some(at) => Some(lesser(first, least_of_round(rows, at))),
    }
}

/// The first type of a table that is, through copies, a copy of itself, if there is one.
pub(crate) fn first_circular(alloc: Global, rows: &[Row]) -> Result<Option<u32>, AllocError>
    requires small { length rows.now ≤ 65543 }
    ensures none { result ≡ Ok None → NoneIsCircular rows.now }
    ensures first { IfOk result (λ found. IfSome found (λ n. (n < length rows.now) × FirstIsCircular rows.now n)) }
{
    let mut marks = vec![in alloc; 0u32; rows.len()]?;
    let mut first = None;
    for n in 0..rows.len() {
        first = search_from(rows, &mut marks, n as u32, first);
    }
    Ok(first)
}
