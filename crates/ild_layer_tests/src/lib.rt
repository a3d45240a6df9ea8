//! Tests of the layers of values in blocks: the member or the cause of a refusal that each call gives, a file a kind of type; and of how texts
//! are split.
#![tactic(auto)]

#[cfg(test)]
mod asked;
#[cfg(test)]
mod docs;
#[cfg(test)]
mod enums;
#[cfg(test)]
mod prefixes;
#[cfg(test)]
mod said;
#[cfg(test)]
mod seen;
#[cfg(test)]
mod splits;
#[cfg(test)]
mod structs;
#[cfg(test)]
mod trees;
#[cfg(test)]
mod unions;
#[cfg(test)]
mod views;
#[cfg(test)]
mod views_at;
#[cfg(test)]
mod views_in_order;
#[cfg(test)]
mod views_worked;
