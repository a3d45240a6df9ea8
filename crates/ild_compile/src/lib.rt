//! Schemas are compiled: from bytes to tokens, to the syntax tree, to the table of types, to an accepted table.
#![tactic(auto)]

mod compiling;
mod error;
mod laws;

pub use compiling::{compile, table_of};
pub use error::{CompileErr, Flaw, SchemaFault};
pub use laws::one_verdict;
