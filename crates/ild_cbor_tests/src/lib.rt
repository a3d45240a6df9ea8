//! Tests of public calls on data, blocks and their texts, a file a subject: an example of each answer, and what no command shows.
#![tactic(auto)]

#[cfg(test)]
mod blocks;
#[cfg(test)]
mod cbor;
#[cfg(test)]
mod cids;
#[cfg(test)]
mod data;
#[cfg(test)]
mod json;
#[cfg(test)]
mod keys;
#[cfg(test)]
mod large;
#[cfg(test)]
mod many;
#[cfg(test)]
mod splice;
