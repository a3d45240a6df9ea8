//! A script on the value under a root that names its schema (IPLD Schemas, "typed nodes").
#![tactic(auto)]

mod answering;
mod fault;

pub use answering::run_named_script;
pub use fault::NamedScriptFault;
