//! Tests of proofs: what they say, and what is wrong with them first.
#![tactic(auto)]

#[cfg(test)]
mod blocks;
#[cfg(test)]
mod damaged;
#[cfg(test)]
mod large;
#[cfg(test)]
mod made;
#[cfg(test)]
mod said;
#[cfg(test)]
mod told;
