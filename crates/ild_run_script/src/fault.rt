//! Why a script was not answered to its end.
use ild_run_open::StartFault;
use ild_script_session::Cut;

/// Why a script was not answered to its end.
#[derive(Clone, Copy)]
pub enum ScriptFault {
    /// It couldn't start, and nothing was written.
    Start(StartFault),
    /// Its replies were cut off.
    Cut(Cut),
}
