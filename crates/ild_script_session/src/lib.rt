//! Scripts over a session: lines in order over a store, whatever they mean, and their replies to a sink.
#![tactic(auto)]

mod cut;
mod putting;
mod script;
mod session;

pub use cut::{Cut, write};
pub use putting::{PutFault, publish};
pub use script::{answer_all, write_reply};
pub use session::Session;
