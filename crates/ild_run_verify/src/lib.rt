//! What a proof says of a path into the value under a root: the line that tells it.
#![tactic(auto)]

mod checking;
mod fault;
mod input;
mod telling;

pub use checking::verify;
pub use fault::VerifyFault;
