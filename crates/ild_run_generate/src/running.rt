//! The generator is run.
ghost use Rattle.std.specs.Prelude.{◌≡◌};
ghost use Rattle.ild_run_generate.specs.Generates.{Generates};
ghost use Rattle.ild_run_generate.specs.Runs.{RunsFrom, TakesSteps};
ghost use Rattle.ild_run_generate.specs.inside.Starting.{IsOfEmpty, start_fault};

use crate::counting::count_entries;
use crate::fault::GenerateFault;
use crate::stepping::take_step;
use crate::summary::{Counts, Summary};
use ild_data::Sha256Keys;
use ild_edges::Store;
use ild_generator::{entries_are_plain, next, schema};
use ild_run_open::{Start, StartFault, open};
use ild_run_standing::{held_are_standing, standing_are_at};
use ild_schema::TypeNo;
use ild_view_doc::Doc;
use std::alloc::Global;

/// Takes so many steps from the empty map on.
fn take_steps<K: Store>(
    alloc: Global,
    doc: &mut Doc<'_>,
    count: u64,
    seed: u64,
    store: &mut K,
) -> Result<Counts, GenerateFault>
    ensures { TakesSteps doc.old doc.new seed count (K.moment store.old) result (K.moment store.new) }
{
    // It does no work: its clause says that the keys of each map rise.
    entries_are_plain();
    let mut counts = Counts {
        sets: 0,
        dels: 0,
        absent: 0,
    };
    let mut x = seed;
    let mut i = 0;
    while i < count {
        x = next(x);
        match take_step(alloc, doc, x, i, counts, store) {
            Ok(more) => counts = more,
            Err(fault) => return Err(fault),
        }
        i += 1;
    }
    Ok(counts)
}

/// Takes the steps from the empty map's document on, and counts the entries of the last map.
fn run<K: Store>(
    alloc: Global,
    mut doc: Doc<'_>,
    count: u64,
    seed: u64,
    store: &mut K,
) -> Result<Summary, GenerateFault>
    ensures { RunsFrom doc.entry seed count (K.moment store.old) result (K.moment store.new) }
{
    held_are_standing();
    let counts = match take_steps(alloc, &mut doc, count, seed, store) {
        Ok(counts) => counts,
        Err(fault) => return Err(fault),
    };
    let len = match count_entries(alloc, &doc, store) {
        Ok(len) => len,
        Err(fault) => return Err(fault),
    };
    Ok(Summary {
        sets: counts.sets,
        dels: counts.dels,
        absent: counts.absent,
        len,
        root: doc.root(),
    })
}

/// Why the empty map can't be put: it is a map, and there is no root.
fn start_fault(fault: StartFault) -> GenerateFault
    requires { IsOfEmpty fault }
    ensures { result ≡ start_fault fault }
{
    match fault {
        StartFault::Store => GenerateFault::Store,
        StartFault::Clash(id) => GenerateFault::Clash(id),
        StartFault::Memory => GenerateFault::Memory,
        StartFault::Block { .. } | StartFault::Mismatch => unreachable!(),
    }
}

/// Runs the generator: it puts the empty map of the type `G` of the schema `type G {String:Int} representation advanced HAMT`, and
/// makes `count` edits of it, which the numbers ask for that follow on `seed`. What comes is counted as the same edits of a plain map
/// are, and the root is that of the map that they lead to, built from scratch.
///
/// `Block` comes only of a store that doesn't tell what it holds, `Store` only where that failed, and `Clash` only where other bytes are
/// held under the id of a block of one of the maps.
pub fn generate<K: Store>(
    alloc: Global,
    count: u64,
    seed: u64,
    store: &mut K,
) -> Result<Summary, GenerateFault>
    ensures { Generates seed count (K.moment store.old) result (K.moment store.new) }
{
    standing_are_at();
    let Some(schema) = schema(alloc) else {
        return Err(GenerateFault::Memory);
    };
    match open(alloc, &schema, TypeNo(8), Start::Empty, &Sha256Keys, store) {
        Ok(doc) => run(alloc, doc, count, seed, store),
        Err(fault) => Err(start_fault(fault)),
    }
}
