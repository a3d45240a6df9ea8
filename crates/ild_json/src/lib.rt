//! DAG-JSON both ways: trees of the data model from JSON texts, and their one text.
#![tactic(auto)]

mod decimal;
mod document;
mod error;
mod law;
mod object;
mod printing;
mod reading;
mod show;
mod walk;

pub use error::{JsonErr, PrintErr};
pub use law::printed_is_read;
pub use printing::print;
pub use reading::read;
