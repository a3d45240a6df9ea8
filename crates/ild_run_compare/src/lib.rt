//! Whether a later schema can take the place of an earlier one for a type: the line that tells it.
#![tactic(auto)]

mod comparing;
mod fault;

pub use comparing::compare;
pub use fault::CompareFault;
