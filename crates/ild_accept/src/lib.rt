//! Accepted schemas: those whose blocks can be read in one way alone. Twelve rules say which they are.
#![tactic(auto)]

mod accepting;
mod beside;
mod cycle;
mod error;
mod kinds;
mod laws;
mod part;
mod rank;
mod table;

pub use accepting::accept;
pub use error::AcceptErr;
pub use ild_schema::{Accepted, Kinds, Rule};
pub use kinds::kinds_of;
pub use laws::one_verdict;
