//! Compatible schemas: whether all that stands in blocks as values of one type stands there as values of another too, of a later
//! schema say, with the same shown form.
#![tactic(auto)]

mod asked;
mod compare;
mod fields;
mod judge;
mod laws;
mod members;
mod met;
mod rule;
mod same;

pub use compare::compat;
pub use laws::compatible_is_greatest;
pub use rule::{Differ, Rule};
