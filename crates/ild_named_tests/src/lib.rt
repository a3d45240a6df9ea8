//! Tests of roots that name their schema.
#![tactic(auto)]

#[cfg(test)]
mod rows;
