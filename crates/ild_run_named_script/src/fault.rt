//! Why a script was not answered to its end.
use ild_run_script::ScriptFault;

/// Why a script on the value under a root that names its schema was not answered to its end.
#[derive(Clone, Copy)]
pub enum NamedScriptFault {
    /// Memory for its lines was wanting, before anything was asked of the store, and nothing was written.
    Memory,
    /// It couldn't start, or its replies were cut off.
    Script(ScriptFault),
}
