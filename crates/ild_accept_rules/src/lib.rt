//! The rules of accepted schemas on the texts of one type: the names and the values by which its parts are told apart, prefixes,
//! delimiters, and what each representation asks of its parts.
#![tactic(auto)]

mod clash;
mod delimiter;
mod hex;
mod prefix;
mod seen;
mod strategy;

pub use clash::{member_integer, name_fault};
pub use delimiter::delim_fault;
pub use hex::bytes_of_hex;
pub use prefix::prefix_fault;
pub use strategy::strategy_fault;
