//! A call that runs the generator.
ghost use Rattle.std.specs.Prelude.{◌≡◌};
ghost use Rattle.ild_run.specs.Generator.{RunsGenerator, generate_fault};

use crate::fault::Fault;
use crate::status::Status;
use crate::top::{cut_status, tell};
use ild_edges::{Sink, Store};
use ild_run_generate::{GenerateFault, generate, write_summary};
use std::alloc::Global;

/// The fault of a generator that ended before its last step.
fn generate_fault(fault: GenerateFault) -> Fault
    ensures { result ≡ generate_fault fault }
{
    match fault {
        GenerateFault::Block { id, why } => Fault::Root(id, why),
        GenerateFault::Store => Fault::Store,
        GenerateFault::Clash(id) => Fault::Clash(id),
        GenerateFault::Memory => Fault::Memory,
    }
}

/// Runs the generator, writes the lines of its summary, and answers how it ended.
pub(crate) fn run_generator<K: Store, W: Sink>(
    alloc: Global,
    count: u64,
    seed: u64,
    store: &mut K,
    out: &mut W,
) -> Status
    ensures { RunsGenerator seed count (K.moment store.old) (W.output out.old) result (K.moment store.new) (W.output out.new) }
{
    match generate(alloc, count, seed, store) {
        Ok(summary) => match write_summary(alloc, &summary, out) {
            Ok(()) => Status::Done,
            Err(cut) => cut_status(cut),
        },
        Err(fault) => tell(alloc, generate_fault(fault), out),
    }
}
