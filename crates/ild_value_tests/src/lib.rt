//! Tests of typed values: what JSON texts mean by the types of a schema and how it is shown again, how values are judged,
//! copied, and told as texts.
#![tactic(auto)]

#[cfg(test)]
mod copied;
#[cfg(test)]
mod deep;
#[cfg(test)]
mod judged;
#[cfg(test)]
mod large;
#[cfg(test)]
mod meant;
#[cfg(test)]
mod slots;
#[cfg(test)]
mod texts;
