//! One step of the generator.
ghost use Rattle.std.specs.Prelude.{◌≡◌, ◌≢◌, ◌+◌, ◌-◌, ◌^◌, ◌<◌, ◌≤◌, None, IfOk, IfSome};
ghost use Rattle.ild_run_generate.specs.declared.fault.GenerateFault.TheVariants as fault;
ghost use Rattle.ild_run_generate.specs.Steps.{TakesStep, one_absent, one_more, outcome_of};

use crate::asking::edit_for;
use crate::counting::lacking;
use crate::fault::GenerateFault;
use crate::summary::Counts;
use ild_data::{BlockId, Sha256Keys};
use ild_edges::Store;
use ild_generator::{is_deletion, steps_add_blocks, steps_are_edits};
use ild_run_edit::edit_naming;
use ild_script::No;
use ild_view_doc::Doc;
use std::alloc::Global;

/// What a refusal of a step's edit comes to.
#[derive(Clone, Copy)]
enum Outcome {
    /// The place isn't there.
    Absent,
    /// The edit is left undone: no store can hold its map.
    Left,
    Block,
    Store,
    Clash,
    Memory,
}

/// What a refusal comes to.
fn outcome_of(refusal: No) -> Outcome
    ensures { result ≡ outcome_of refusal }
{
    match refusal {
        No::Path => Outcome::Absent,
        No::Block => Outcome::Block,
        No::Store => Outcome::Store,
        No::Clash => Outcome::Clash,
        No::Memory => Outcome::Memory,
        No::Line | No::Json | No::Mismatch | No::Delimiter | No::Hole | No::Depth => Outcome::Left,
        No::Exhausted | No::Size | No::Reserved | No::Batch => Outcome::Left,
    }
}

/// The counts after a step that deletes a key, or sets one.
fn one_more(deletes: bool, counts: Counts) -> Counts
    requires { counts.sets + counts.dels + counts.absent < 2 ^ 64 - 1 }
    ensures more { result ≡ one_more deletes counts }
    ensures few { result.sets + result.dels + result.absent ≤ counts.sets + counts.dels + counts.absent + 1 }
{
    if deletes {
        Counts {
            sets: counts.sets,
            dels: counts.dels + 1,
            absent: counts.absent,
        }
    } else {
        Counts {
            sets: counts.sets + 1,
            dels: counts.dels,
            absent: counts.absent,
        }
    }
}

/// The counts after a step whose place isn't there.
fn one_absent(deletes: bool, counts: Counts) -> Counts
    requires { counts.sets + counts.dels + counts.absent < 2 ^ 64 - 1 }
    ensures more { result ≡ one_absent deletes counts }
    ensures few { result.sets + result.dels + result.absent ≤ counts.sets + counts.dels + counts.absent + 1 }
{
    if deletes {
        Counts {
            sets: counts.sets,
            dels: counts.dels,
            absent: counts.absent + 1,
        }
    } else {
        counts
    }
}

/// The fault of a clash, which has its id.
fn clash_of(clash: Option<BlockId>) -> GenerateFault
    requires { clash ≢ None }
    ensures { IfSome clash (λ id. result ≡ fault.Clash id) }
{
    match clash {
        Some(id) => GenerateFault::Clash(id),
        None => unreachable!(),
    }
}

/// Makes the edit that a number asks for in step `i`, and counts it: the counts are left where the edit is refused as one whose map no
/// store can hold.
pub(crate) fn take_step<K: Store>(
    alloc: Global,
    doc: &mut Doc<'_>,
    x: u64,
    i: u64,
    counts: Counts,
    store: &mut K,
) -> Result<Counts, GenerateFault>
    requires { counts.sets + counts.dels + counts.absent < 2 ^ 64 - 1 }
    ensures takes { TakesStep doc.old doc.new x i counts (K.moment store.old) result (K.moment store.new) }
    ensures few { IfOk result (λ c. c.sets + c.dels + c.absent ≤ counts.sets + counts.dels + counts.absent + 1) }
{
    // They do no work: their clauses say what the edit makes, and what blocks may come.
    steps_are_edits();
    steps_add_blocks();
    let Some(asked) = edit_for(alloc, x, i) else {
        return Err(GenerateFault::Memory);
    };
    let json = asked.json.as_str().as_bytes();
    let mut clash = None;
    let answer = edit_naming(
        alloc,
        doc,
        asked.verb,
        &asked.path,
        json,
        &Sha256Keys,
        store,
        &mut clash,
    );
    let refusal = match answer {
        Ok(()) => return Ok(one_more(is_deletion(x), counts)),
        Err(refusal) => refusal,
    };
    match outcome_of(refusal) {
        Outcome::Absent => Ok(one_absent(is_deletion(x), counts)),
        Outcome::Left => Ok(counts),
        Outcome::Block => Err(lacking(alloc, doc, store)),
        Outcome::Store => Err(GenerateFault::Store),
        Outcome::Clash => Err(clash_of(clash)),
        Outcome::Memory => Err(GenerateFault::Memory),
    }
}
