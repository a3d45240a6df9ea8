//! The path that a text writes, as the lines of scripts write it.
#![tactic(auto)]

mod reading;

pub use reading::path_of_text;
