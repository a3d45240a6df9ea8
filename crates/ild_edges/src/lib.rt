//! The outside: where inputs come from, where blocks are kept, and where the output goes.
#![tactic(auto)]

mod blocks;
mod due;
mod error;
mod inputs;
mod laws;
mod mem_inputs;
mod mem_sink;
mod mem_store;
mod sink;
mod store;

pub use error::EdgeErr;
pub use inputs::{Inputs, LONGEST_INPUT, Taken};
pub use laws::blocks_hold_themselves;
pub use mem_inputs::MemInputs;
pub use mem_sink::MemSink;
pub use mem_store::MemStore;
pub use sink::Sink;
pub use store::Store;
