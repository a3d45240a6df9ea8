//! A script on the value of a schema's type: its document is opened, and its lines are answered (IPLD Schemas, "typed nodes").
#![tactic(auto)]

mod answering;
mod fault;

pub use answering::run_script;
pub use fault::ScriptFault;
