//! The generator over a store: it puts the empty map, and makes each step an edit (a linear congruential generator; IPLD HashMap).
#![tactic(auto)]

mod asking;
mod counting;
mod fault;
mod running;
mod stepping;
mod summary;
mod telling;
mod words;

pub use fault::GenerateFault;
pub use running::generate;
pub use summary::Summary;
pub use telling::write_summary;
pub use words::generation_of;
