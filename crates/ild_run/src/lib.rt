//! The top call: a schema is checked or compared with a later one, a value of any of its types is created or shown, a script is run on
//! one or over named heads, it is told what a proof says of one, a proof is made, or a map is generated.
#![tactic(auto)]

mod beneath;
mod fault;
mod generator;
mod laws;
mod listed;
mod migrating;
mod open;
mod proving;
mod revealing;
mod serving;
mod showing;
mod status;
mod top;
mod weighing;

pub use laws::{collisions_can_be_apart, roots_need_no_schema};
pub use status::Status;
pub use top::run;
