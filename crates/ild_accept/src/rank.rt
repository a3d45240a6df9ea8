//! Ranks of types, so that no step leads to a higher rank, and all but those on cycles lead to lower ones. No contract says
//! so: who uses the ranks tests them, which costs one look at each step.
ghost use Rattle.std.specs.Prelude.{◌≡◌};
ghost use Rattle.ild_accept.specs.inside.Search.{rank_of};

use crate::cycle::steps_at;
use ild_schema::{Schema, TypeNo};
use std::alloc::{AllocError, Global};

/// A walk along steps, depth first, that finds the types which reach one another (Tarjan, "Depth-first search and linear
/// graph algorithms").
#[derive(Drop)]
struct Walk {
    /// When types were met, from 1 on.
    met: Vec<u32>,
    /// The first that was met, and has no rank, of those that are reached from a type.
    low: Vec<u32>,
    ranks: Vec<u32>,
    /// The types that were met and have no rank.
    open: Vec<u32>,
    last_met: u32,
    last_rank: u32,
}

/// The number that a type has, or 0 where it has none.
pub(crate) fn rank_of(ranks: &[u32], n: u32) -> u32
    ensures { result ≡ rank_of ranks.now n }
{
    if (n as usize) < ranks.len() {
        ranks[n as usize]
    } else {
        0
    }
}

fn put(numbers: &mut Vec<u32>, n: u32, number: u32) {
    if (n as usize) < numbers.len() {
        numbers[n as usize] = number;
    }
}

/// Meets a type, and puts it below those to which it leads.
fn enter(walk: &mut Walk, stack: &mut Vec<u32>, n: u32, steps: &[u32]) -> Result<(), AllocError> {
    walk.last_met = walk.last_met.saturating_add(1);
    put(&mut walk.met, n, walk.last_met);
    put(&mut walk.low, n, walk.last_met);
    walk.open.push(n)?;
    stack.push(n)?;
    for t in steps {
        if rank_of(&walk.met, *t) == 0 {
            stack.push(*t)?;
        }
    }
    Ok(())
}

/// Gives the types a rank that were met since a type was.
fn close(walk: &mut Walk, n: u32) {
    walk.last_rank = walk.last_rank.saturating_add(1);
    for _ in 0..walk.open.len() {
        match walk.open.pop() {
            None => return,
            Some(t) => {
                put(&mut walk.ranks, t, walk.last_rank);
                if t == n {
                    return;
                }
            }
        }
    }
}

/// Leaves a type, all behind which was met.
fn leave(walk: &mut Walk, n: u32, steps: &[u32]) {
    let mut low = rank_of(&walk.low, n);
    for t in steps {
        if rank_of(&walk.ranks, *t) == 0 {
            low = low.min(rank_of(&walk.low, *t));
        }
    }
    put(&mut walk.low, n, low);
    if low == rank_of(&walk.met, n) {
        close(walk, n);
    }
}

/// Walks from a type as far as its steps lead.
fn walk_from(alloc: Global, schema: &Schema, walk: &mut Walk, from: u32) -> Result<(), AllocError> {
    let mut stack = vec![in alloc; from]?;
    for _ in 0..u64::MAX {
        let n = match stack.pop() {
            None => return Ok(()),
            Some(n) => n,
        };
        if rank_of(&walk.ranks, n) != 0 {
            continue;
        }
        let steps = steps_at(alloc, schema, TypeNo(n))?;
        if rank_of(&walk.met, n) == 0 {
            enter(walk, &mut stack, n, &steps)?;
        } else {
            leave(walk, n, &steps);
        }
    }
    Ok(())
}

/// The ranks of the types of a table.
pub(crate) fn ranks_of(alloc: Global, schema: &Schema) -> Result<Vec<u32>, AllocError> {
    let types = schema.types() as usize;
    let mut walk = Walk {
        met: vec![in alloc; 0; types]?,
        low: vec![in alloc; 0; types]?,
        ranks: vec![in alloc; 0; types]?,
        open: Vec::new(alloc),
        last_met: 0,
        last_rank: 0,
    };
    for n in 0..schema.types() {
        walk_from(alloc, schema, &mut walk, n)?;
    }
    Ok(walk.ranks)
}
