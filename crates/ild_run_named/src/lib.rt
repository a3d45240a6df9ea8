//! Roots that name their schema, by themselves: the value under one is shown as DAG-JSON, and a value under a bare root is given one.
#![tactic(auto)]

mod migrating;
mod showing;
mod typing;

pub use migrating::{MigrateFault, migrate};
pub use showing::show_named;
pub use typing::type_of;
