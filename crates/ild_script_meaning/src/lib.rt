//! The lines of a script on typed values: definitions of what each is due, and laws as the contracts of functions without a body.
#![tactic(auto)]

mod laws;

pub use laws::{
    edits_in_a_batch_are_owed, lines_keep_values_that_can_be_held, lines_say_what_a_plain_map_says,
    refused_lines_leave_the_state,
};
