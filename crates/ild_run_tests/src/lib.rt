//! Tests of public calls on the outside and on runs over objects in memory, a file a subject.
#![tactic(auto)]

#[cfg(test)]
mod batch;
#[cfg(test)]
mod club;
#[cfg(test)]
mod edges;
#[cfg(test)]
mod files;
#[cfg(test)]
mod plain;
#[cfg(test)]
mod sessions;
#[cfg(test)]
mod typed;
