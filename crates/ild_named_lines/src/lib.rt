//! Scripts whose paths go through `value` first, as under a root that names its schema.
#![tactic(auto)]

mod beneath;
mod laws;

pub use beneath::script_beneath;
pub use laws::{lines_are_read_beneath, scripts_are_of_lines};
