//! Scripts over named heads: lines in order over work that knows roots, whatever it means by values, what they are answered to a sink,
//! and the heads at the end.
#![tactic(auto)]

mod answering;
mod ending;
mod lines;
mod running;
mod saying;

pub use running::run_lines;
