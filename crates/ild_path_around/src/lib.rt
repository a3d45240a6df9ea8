//! Whether an edit at a place breaks a delimiter rule (IPLD Schemas, "stringjoin", "stringpairs").
#![tactic(auto)]

mod around;
mod laws;

pub use around::breaks_around;
pub use ild_path_tells::{faults_are_refusals, places_tell, places_tell_on};
pub use laws::{fronts_break_alike, hamts_stand_in_no_text, slots_are_told};
