//! The top call.
ghost use Rattle.std.specs.Prelude.{◌≡◌, ◌≤◌, ◌<◌, length, Some, None};
ghost use Rattle.ild_edges.specs.Inputs.{After};
ghost use Rattle.ild_edges.specs.Store.{Later};
ghost use Rattle.ild_run.specs.Words.{job_of};
ghost use Rattle.ild_run.specs.Opening.{job_seen, IsReady};
ghost use Rattle.ild_run.specs.Fault.{cut_status, start_fault};
ghost use Rattle.ild_run.specs.Cut.{ToldAs};
ghost use Rattle.ild_run.specs.Listed.{ListedAs};
ghost use Rattle.ild_run.specs.inside.Matched.{MatchedAs};
ghost use Rattle.ild_run.specs.inside.Carried.{CarriedAs};
ghost use Rattle.ild_run.specs.inside.Made.{MadeAs, made_fault};
ghost use Rattle.ild_run.specs.inside.Answered.{AnsweredAs};
ghost use Rattle.ild_run.specs.Shown.{Replied};
ghost use Rattle.ild_run.specs.Ended.{Ended, call_of};
ghost use Rattle.ild_run.specs.Complete.{IsComplete};
ghost use Rattle.ild_run.specs.Asked.{EndedBy};
ghost use Rattle.ild_run.specs.Generator.{IsCompleteBy};
ghost use Rattle.ild_run.specs.Named.{IsRevealedBy, root_shown};
ghost use Rattle.ild_run.specs.NamedScript.{IsAnsweredBy, script_run};
ghost use Rattle.ild_run_generate.specs.Words.{generation_of};

use crate::beneath::{run_root, script_run};
use crate::fault::{Fault, write_fault};
use crate::generator::run_generator;
use crate::listed::names_json;
use crate::migrating::move_root;
use crate::open::{Job, Task, job_of, plan};
use crate::proving::seek;
use crate::revealing::{reveal, root_shown};
use crate::serving::serve;
use crate::showing::present;
use crate::status::Status;
use crate::weighing::weigh;
use ild_data::{Sha256Keys, Txt};
use ild_edges::{Inputs, Sink, Store};
use ild_run_compare::{CompareFault, compare};
use ild_run_create::{CreateFault, Refusal, create};
use ild_run_generate::generation_of;
use ild_run_open::{Start, StartFault};
use ild_run_script::{ScriptFault, run_script};
use ild_schema::{Accepted, TypeNo};
use ild_script::Reply;
use ild_script_session::{Cut, write_reply};
use std::alloc::Global;

/// The status of a call whose text was cut off.
pub(crate) fn cut_status(cut: Cut) -> Status
    ensures { result ≡ cut_status cut }
{
    match cut {
        Cut::Sink => Status::SinkFault,
        Cut::Memory => Status::Memory,
    }
}

/// Writes the line of a fault, and answers its status.
pub(crate) fn tell<W: Sink>(alloc: Global, fault: Fault, out: &mut W) -> Status
    ensures { ToldAs fault (W.output out.old) result (W.output out.new) }
{
    match write_fault(alloc, fault, out) {
        Ok(()) => fault.status(),
        Err(cut) => cut_status(cut),
    }
}

/// Writes the line that lists names, and answers how it ended.
fn list<W: Sink>(alloc: Global, names: &[Txt], out: &mut W) -> Status
    ensures { ListedAs names.now (W.output out.old) result (W.output out.new) }
{
    let Some(json) = names_json(alloc, names) else {
        return tell(alloc, Fault::Memory, out);
    };
    match write_reply(alloc, &Reply::Ok(json), out) {
        Ok(()) => Status::Done,
        Err(cut) => cut_status(cut),
    }
}

/// Compares a type of a schema with one of a later schema, writes the line of the answer, and answers how it ended.
fn match_types<W: Sink>(
    alloc: Global,
    schema: &Accepted,
    ty: TypeNo,
    next: &Accepted,
    later: TypeNo,
    out: &mut W,
) -> Status
    requires within { ty.0 < length schema.now }
    requires later { later.0 < length next.now }
    ensures { MatchedAs schema.now next.now ty later (W.output out.old) result (W.output out.new) }
{
    match compare(alloc, schema, ty, next, later, out) {
        Ok(true) => Status::Done,
        Ok(false) => Status::Refused,
        Err(CompareFault::Memory) => tell(alloc, Fault::Memory, out),
        Err(CompareFault::Cut(cut)) => cut_status(cut),
    }
}

/// The fault of a value that is not created.
fn made_fault(fault: CreateFault) -> Fault
    ensures { result ≡ made_fault fault }
{
    match fault {
        CreateFault::Refused(refusal) => Fault::Value(refusal),
        CreateFault::Store => Fault::Store,
        CreateFault::Clash(id) => Fault::Clash(id),
        CreateFault::Memory => Fault::Memory,
    }
}

/// Creates a value of a type, writes the line of its root, and answers how it ended.
fn make<K: Store, W: Sink>(
    alloc: Global,
    schema: &Accepted,
    ty: TypeNo,
    bytes: &[u8],
    store: &mut K,
    out: &mut W,
) -> Status
    requires within { ty.0 < length schema.now }
    ensures { MadeAs schema.now ty bytes.now (K.moment store.old) (W.output out.old) result (K.moment store.new) (W.output out.new) }
{
    schema.recall();
    match create(alloc, schema, ty, bytes, &Sha256Keys, store) {
        Ok(id) => match write_reply(alloc, &Reply::Root(id), out) {
            Ok(()) => Status::Done,
            Err(cut) => cut_status(cut),
        },
        Err(fault) => tell(alloc, made_fault(fault), out),
    }
}

/// Writes the one reply of a call, and answers how it ended: with this status, if all was written.
pub(crate) fn reply<W: Sink>(alloc: Global, reply: &Reply, due: Status, out: &mut W) -> Status
    ensures told { Replied reply.now due (W.output out.old) result (W.output out.new) }
    ensures faults { (W.output out.old).faults ≤ (W.output out.new).faults }
{
    match write_reply(alloc, reply, out) {
        Ok(()) => due,
        Err(cut) => cut_status(cut),
    }
}

/// The fault of a script that can't start. Where the type has no empty value, the value is refused as any other that isn't of the type.
pub(crate) fn start_fault(fault: StartFault) -> Fault
    ensures { result ≡ start_fault fault }
{
    match fault {
        StartFault::Block { id, why } => Fault::Root(id, why),
        StartFault::Mismatch => Fault::Value(Refusal::Mismatch),
        StartFault::Store => Fault::Store,
        StartFault::Clash(id) => Fault::Clash(id),
        StartFault::Memory => Fault::Memory,
    }
}

/// Answers a script on a value of a type, and answers how it ended.
fn answer<K: Store, W: Sink>(
    alloc: Global,
    schema: &Accepted,
    ty: TypeNo,
    start: Start,
    script: &[u8],
    store: &mut K,
    out: &mut W,
) -> Status
    requires within { ty.0 < length schema.now }
    ensures { AnsweredAs schema.now ty start script.now (K.moment store.old) (W.output out.old) result (K.moment store.new) (W.output out.new) }
{
    schema.recall();
    match run_script(alloc, schema, ty, start, script, store, out) {
        Ok(false) => Status::Done,
        Ok(true) => Status::Refused,
        Err(ScriptFault::Start(fault)) => tell(alloc, start_fault(fault), out),
        Err(ScriptFault::Cut(cut)) => cut_status(cut),
    }
}

/// Does what is to be done once the inputs are taken, and answers how it ended.
fn carry_task<K: Store, W: Sink>(
    alloc: Global,
    task: &Task<'_>,
    store: &mut K,
    out: &mut W,
) -> Status
    requires ready { IsReady task.now }
    ensures carried { CarriedAs task.now (K.moment store.old) (W.output out.old) result (K.moment store.new) (W.output out.new) }
    ensures later { Later (K.moment store.old) (K.moment store.new) }
    ensures sink { (W.output out.old).faults ≤ (W.output out.new).faults }
{
    match task {
        Task::List(schema) => list(alloc, schema.names(), out),
        Task::Compare(schema, ty, next, later) => {
            match_types(alloc, schema, *ty, next, *later, out)
        }
        Task::Answer(schema, ty, start, script) => {
            answer(alloc, schema, *ty, *start, script.as_slice(), store, out)
        }
        Task::Create(schema, ty, bytes) => {
            make(alloc, schema, *ty, bytes.as_slice(), store, out)
        }
        Task::Verify(schema, ty, root, path, proof) => {
            weigh(alloc, schema, *ty, root, path, proof.as_slice(), out)
        }
        Task::Serve(schema, ty, script) => {
            serve(alloc, schema, *ty, script.as_slice(), store, out)
        }
        Task::Prove(schema, ty, root, path) => seek(alloc, schema, *ty, root, path, store, out),
        Task::Migrate(schema, ty, root, name, source) => {
            move_root(alloc, schema, *ty, root, name, source.as_str(), store, out)
        }
        Task::Show(schema, ty, root) => present(alloc, schema, *ty, root, store, out),
    }
}

/// Does what a job asks for, and answers how it ended.
fn carry_job<I: Inputs, K: Store, W: Sink>(
    alloc: Global,
    job: &Job<'_>,
    inputs: &mut I,
    store: &mut K,
    out: &mut W,
) -> Status
    ensures ended { Ended (call_of (Some (job_seen job.now)) (I.supply inputs.old) (K.moment store.old) (W.output out.old) (I.supply inputs.new) (K.moment store.new) (W.output out.new)) result }
    ensures inputs { After (I.supply inputs.old) (I.supply inputs.new) }
    ensures later { Later (K.moment store.old) (K.moment store.new) }
    ensures sink { (W.output out.old).faults ≤ (W.output out.new).faults }
{
    let task = match plan(alloc, inputs, job) {
        Ok(task) => task,
        Err(fault) => return tell(alloc, fault, out),
    };
    carry_task(alloc, &task, store, out)
}

/// Does what the words say, and answers how it ended.
fn carry_out<I: Inputs, K: Store, W: Sink>(
    alloc: Global,
    words: &[String],
    inputs: &mut I,
    store: &mut K,
    out: &mut W,
) -> Status
    ensures ended { Ended (call_of (job_of words.now) (I.supply inputs.old) (K.moment store.old) (W.output out.old) (I.supply inputs.new) (K.moment store.new) (W.output out.new)) result }
    ensures inputs { After (I.supply inputs.old) (I.supply inputs.new) }
    ensures later { Later (K.moment store.old) (K.moment store.new) }
    ensures sink { (W.output out.old).faults ≤ (W.output out.new).faults }
{
    match job_of(alloc, words) {
        Ok(Some(job)) => carry_job(alloc, &job, inputs, store, out),
        Ok(None) => tell(alloc, Fault::Words, out),
        Err(_) => tell(alloc, Fault::Memory, out),
    }
}

/// Does what the words say that name a schema, or answers a script on the value under a root that names its own; and answers how it ended.
fn carry_scripts<I: Inputs, K: Store, W: Sink>(
    alloc: Global,
    words: &[String],
    inputs: &mut I,
    store: &mut K,
    out: &mut W,
) -> Status
    ensures ended { EndedBy None None (script_run words.now)
        (call_of (job_of words.now) (I.supply inputs.old) (K.moment store.old) (W.output out.old) (I.supply inputs.new) (K.moment store.new) (W.output out.new))
        result }
    ensures complete { IsComplete (call_of (job_of words.now) (I.supply inputs.old) (K.moment store.old) (W.output out.old) (I.supply inputs.new) (K.moment store.new) (W.output out.new)) result }
    ensures answered { IsAnsweredBy (script_run words.now)
        (call_of (job_of words.now) (I.supply inputs.old) (K.moment store.old) (W.output out.old) (I.supply inputs.new) (K.moment store.new) (W.output out.new))
        result }
    ensures inputs { After (I.supply inputs.old) (I.supply inputs.new) }
    ensures later { Later (K.moment store.old) (K.moment store.new) }
    ensures sink { (W.output out.old).faults ≤ (W.output out.new).faults }
{
    match script_run(alloc, words) {
        Ok(Some((root, script))) => run_root(alloc, &root, script, inputs, store, out),
        Ok(None) => carry_out(alloc, words, inputs, store, out),
        Err(_) => tell(alloc, Fault::Memory, out),
    }
}

/// Does what the words say that don't run the generator, and answers how it ended.
fn carry_words<I: Inputs, K: Store, W: Sink>(
    alloc: Global,
    words: &[String],
    inputs: &mut I,
    store: &mut K,
    out: &mut W,
) -> Status
    ensures ended { EndedBy None (root_shown words.now) (script_run words.now)
        (call_of (job_of words.now) (I.supply inputs.old) (K.moment store.old) (W.output out.old) (I.supply inputs.new) (K.moment store.new) (W.output out.new))
        result }
    ensures complete { IsComplete (call_of (job_of words.now) (I.supply inputs.old) (K.moment store.old) (W.output out.old) (I.supply inputs.new) (K.moment store.new) (W.output out.new)) result }
    ensures revealed { IsRevealedBy (root_shown words.now)
        (call_of (job_of words.now) (I.supply inputs.old) (K.moment store.old) (W.output out.old) (I.supply inputs.new) (K.moment store.new) (W.output out.new))
        result }
    ensures answered { IsAnsweredBy (script_run words.now)
        (call_of (job_of words.now) (I.supply inputs.old) (K.moment store.old) (W.output out.old) (I.supply inputs.new) (K.moment store.new) (W.output out.new))
        result }
    ensures inputs { After (I.supply inputs.old) (I.supply inputs.new) }
    ensures later { Later (K.moment store.old) (K.moment store.new) }
    ensures sink { (W.output out.old).faults ≤ (W.output out.new).faults }
{
    match root_shown(alloc, words) {
        Ok(Some(root)) => reveal(alloc, &root, store, out),
        Ok(None) => carry_scripts(alloc, words, inputs, store, out),
        Err(_) => tell(alloc, Fault::Memory, out),
    }
}

/// Does what the words say, and answers how it ended.
///
/// Under `check` a schema is compiled, and the names that it declares are listed, or its first fault is told. Under `run` each
/// line of the script is answered as the same command is on the plain value of the type, from the value that stands under the root on,
/// or from the empty map or list, whose block is put first. A root that is printed is the id of the block built from scratch from the
/// value at that line. A line that is refused changes nothing, and its cause is there. Under `new` the value of a type that an input means as DAG-JSON is built and put, and its root is printed;
/// or the first cause is told for which no store holds such a value. Under `show` the value of a type that stands under a root is read
/// and written as DAG-JSON; or a block is told that isn't held, or isn't what has to stand there, where no such value does. Without a schema and
/// a type `show` takes both from the root, which names the type and links to the schema's text, and so does `run`: its lines are answered as on
/// the plain value, and a root that is printed names the type and the schema too. And `migrate` gives the value of a type that
/// stands under a root another root, which names its schema so, puts the schema's text, and prints the new root. Under `compat`
/// the types with one name of two schemas are compared: `ok true` tells that all that stands as a value of the first stands as one of the
/// other, in the same blocks and with the same shown form; or a pair of their types is told, and a rule that fails for it. Under `verify`
/// no store is asked: what a list of blocks says of a path in the value of a type under a root is told, a part or that there is none; or the list
/// is refused, where it says nothing. Under `prove` such a list is made of what stands at a path in the value that stands under a root, and written
/// as DAG-JSON; or a block is told as under `show`, where no such value does. Under `heads` each line of the script is an event over named heads and sessions, and its outcome is written;
/// a head's root is reached from its first one by the commits of its log, each line of which is answered as the same command is on the plain value;
/// and a line for each head is written at the end. Under `gen`
/// a map is generated, and its counts, the number of its entries and its root are written, which are those of a plain map.
pub fn run<I: Inputs, K: Store, W: Sink>(
    alloc: Global,
    words: &[String],
    inputs: &mut I,
    store: &mut K,
    out: &mut W,
) -> Status
    // The status, the text that was written, the cause of both, and what came of the store.
    ensures ended { EndedBy (generation_of words.now) (root_shown words.now) (script_run words.now)
        (call_of (job_of words.now) (I.supply inputs.old) (K.moment store.old) (W.output out.old) (I.supply inputs.new) (K.moment store.new) (W.output out.new))
        result }

    // Where no call of the outside failed and no blocks collide, all that the words ask for is done.
    ensures complete { IsComplete (call_of (job_of words.now) (I.supply inputs.old) (K.moment store.old) (W.output out.old) (I.supply inputs.new) (K.moment store.new) (W.output out.new)) result }

    // The same of the generator.
    ensures generated { IsCompleteBy (generation_of words.now)
        (call_of (job_of words.now) (I.supply inputs.old) (K.moment store.old) (W.output out.old) (I.supply inputs.new) (K.moment store.new) (W.output out.new))
        result }

    // And of a value that is shown by its root alone.
    ensures revealed { IsRevealedBy (root_shown words.now)
        (call_of (job_of words.now) (I.supply inputs.old) (K.moment store.old) (W.output out.old) (I.supply inputs.new) (K.moment store.new) (W.output out.new))
        result }

    // And of a script that is answered on the value under a root, by the root alone.
    ensures answered { IsAnsweredBy (script_run words.now)
        (call_of (job_of words.now) (I.supply inputs.old) (K.moment store.old) (W.output out.old) (I.supply inputs.new) (K.moment store.new) (W.output out.new))
        result }

    // What was held is held, what was given is given, and no count falls.
    ensures inputs { After (I.supply inputs.old) (I.supply inputs.new) }
    ensures later { Later (K.moment store.old) (K.moment store.new) }
    ensures sink { (W.output out.old).faults ≤ (W.output out.new).faults }
{
    match generation_of(words) {
        Some((count, seed)) => run_generator(alloc, count, seed, store, out),
        None => carry_words(alloc, words, inputs, store, out),
    }
}
