//! Tests of public calls on HAMTs: nodes that are written and read, whole HAMTs that are built and edited, beside blocks of a plain trie in
//! Python, and those that are walked, as they stand and damaged.
#![tactic(auto)]

#[cfg(test)]
mod beside;
#[cfg(test)]
mod built;
#[cfg(test)]
mod damaged;
#[cfg(test)]
mod edited;
#[cfg(test)]
mod narrow;
#[cfg(test)]
mod nodes;
#[cfg(test)]
mod resumed;
#[cfg(test)]
mod untold;
#[cfg(test)]
mod walked;
#[cfg(test)]
mod whys;
