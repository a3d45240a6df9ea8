//! The value of a schema's type that stands under a block id, shown as DAG-JSON.
#![tactic(auto)]

mod fault;
mod showing;

pub use fault::ShowFault;
pub use showing::{show, shown_text};
