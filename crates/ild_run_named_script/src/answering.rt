//! A script is run.
ghost use Rattle.std.specs.Prelude.{◌<◌, length};
ghost use Rattle.ild_run_named_script.specs.NamedScripts.{NamedScripts};

use crate::NamedScriptFault;
use ild_data::BlockId;
use ild_edges::{Sink, Store};
use ild_named_lines::script_beneath;
use ild_run_open::Start;
use ild_run_script::run_script;
use ild_schema::{Accepted, TypeNo};
use std::alloc::Global;

/// Runs a script on the value under a root that names its schema: opens the value, answers the script's lines in order, and says whether
/// one was refused. The table is the schema's with the struct of such roots as one row more, and the type is that struct.
///
/// Each line is answered as the same line with `/value` before its path is on the root, which is a bare one by this table. So a root that
/// is printed names the schema as the first one did, and what bounds a root's block and how deep it nests bounds these too.
pub fn run_named_script<K: Store, W: Sink>(
    alloc: Global,
    acc: &Accepted,
    ty: TypeNo,
    id: &BlockId,
    script: &[u8],
    store: &mut K,
    out: &mut W,
) -> Result<bool, NamedScriptFault>
    requires { ty.0 < length acc.now }
    ensures { NamedScripts acc.now ty id.now script.now (K.moment store.old) (W.output out.old) result (K.moment store.new) (W.output out.new) }
{
    let beneath = match script_beneath(alloc, script) {
        Ok(beneath) => beneath,
        Err(_) => return Err(NamedScriptFault::Memory),
    };
    let root = Start::Root(*id);
    match run_script(alloc, acc, ty, root, beneath.as_slice(), store, out) {
        Ok(refused) => Ok(refused),
        Err(fault) => Err(NamedScriptFault::Script(fault)),
    }
}
