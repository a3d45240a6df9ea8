//! Edits of typed values at paths: definitions, and laws as the contracts of functions without a body.
#![tactic(auto)]

mod laws;

pub use laws::{
    changes_are_judged_along_the_path, edits_are_local, edits_keep_types, elements_move,
    judged_values_can_be_held, schemas_have_tests, stops_tell,
};
