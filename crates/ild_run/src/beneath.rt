//! A call that answers a script on the value under a root that names its schema.
ghost use Rattle.std.specs.Prelude.{◌≡◌, ◌≤◌, ◌<◌, length};
ghost use Rattle.ild_edges.specs.Inputs.{After};
ghost use Rattle.ild_edges.specs.Store.{Later};
ghost use Rattle.ild_run.specs.NamedScript.{AsksScript, BeneathAs, RunsRoot, script_run, table_fault};

use crate::fault::{Fault, Role};
use crate::open::{asked_root, take_input};
use crate::status::Status;
use crate::top::{cut_status, start_fault, tell};
use ild_data::BlockId;
use ild_edges::{Inputs, Sink, Store};
use ild_run_named_script::{NamedScriptFault, run_named_script};
use ild_run_named_table::{OpenFault, named_table};
use ild_run_script::ScriptFault;
use ild_schema::{Accepted, TypeNo};
use std::alloc::Global;

/// The root of `run ROOT SCRIPT`, where ROOT is the text of a block id, and the name of the script's input; or `None` where the words are
/// others.
pub(crate) fn script_run(alloc: Global, words: &[String]) -> Result<Option<(BlockId, &str)>, Fault>
    ensures { AsksScript (script_run words.now) result }
{
    match words {
        [verb, root, script] if verb.as_str() == "run" => {
            match asked_root(alloc, root.as_str()) {
                Ok(Some(id)) => Ok(Some((id, script.as_str()))),
                Ok(None) => Ok(None),
                Err(fault) => Err(fault),
            }
        }
        _ => Ok(None),
    }
}

/// The fault of a root of which no table is made.
fn table_fault(fault: OpenFault) -> Fault
    ensures { result ≡ table_fault fault }
{
    match fault {
        OpenFault::Block { id, why } => Fault::Root(id, why),
        OpenFault::Store => Fault::Store,
        OpenFault::Memory => Fault::Memory,
    }
}

/// Answers a script on the value under a root, by the table that has the struct of such roots, and answers how it ended.
fn answer_beneath<K: Store, W: Sink>(
    alloc: Global,
    schema: &Accepted,
    ty: TypeNo,
    root: &BlockId,
    script: &[u8],
    store: &mut K,
    out: &mut W,
) -> Status
    requires within { ty.0 < length schema.now }
    ensures { BeneathAs schema.now ty root.now script.now (K.moment store.old) (W.output out.old) result (K.moment store.new) (W.output out.new) }
{
    schema.recall();
    match run_named_script(alloc, schema, ty, root, script, store, out) {
        Ok(false) => Status::Done,
        Ok(true) => Status::Refused,
        Err(NamedScriptFault::Memory) => tell(alloc, Fault::Memory, out),
        Err(NamedScriptFault::Script(ScriptFault::Start(fault))) => {
            tell(alloc, start_fault(fault), out)
        }
        Err(NamedScriptFault::Script(ScriptFault::Cut(cut))) => cut_status(cut),
    }
}

/// Makes the table of what a root tells, takes the script, answers it on the value under the root, and answers how it ended.
pub(crate) fn run_root<I: Inputs, K: Store, W: Sink>(
    alloc: Global,
    root: &BlockId,
    script: &str,
    inputs: &mut I,
    store: &mut K,
    out: &mut W,
) -> Status
    ensures runs { RunsRoot root.now script.now (I.supply inputs.old) (K.moment store.old) (W.output out.old) result (I.supply inputs.new) (K.moment store.new) (W.output out.new) }
    ensures inputs { After (I.supply inputs.old) (I.supply inputs.new) }
    ensures later { Later (K.moment store.old) (K.moment store.new) }
    ensures sink { (W.output out.old).faults ≤ (W.output out.new).faults }
{
    let (schema, ty) = match named_table(alloc, root, store) {
        Ok(named) => named,
        Err(fault) => return tell(alloc, table_fault(fault), out),
    };
    match take_input(inputs, Role::Script, script) {
        Ok(bytes) => answer_beneath(alloc, &schema, ty, root, bytes.as_slice(), store, out),
        Err(fault) => tell(alloc, fault, out),
    }
}
