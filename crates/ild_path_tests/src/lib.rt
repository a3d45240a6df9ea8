//! Tests of edits at places: in one block, from the steps along a path to the block of an edit, whatever holders stand on its path, with the
//! delimiter rules of the texts around a part and what the table of edits allows; and through HAMTs in one another, with what a call of
//! the store that fails and a block that is missing or damaged leave.
#![tactic(auto)]

#[cfg(test)]
mod block_told;
#[cfg(test)]
mod created;
#[cfg(test)]
mod damaged;
#[cfg(test)]
mod failing;
#[cfg(test)]
mod forest;
#[cfg(test)]
mod inner;
#[cfg(test)]
mod joins;
#[cfg(test)]
mod last;
#[cfg(test)]
mod missing;
#[cfg(test)]
mod overlaps;
#[cfg(test)]
mod places;
#[cfg(test)]
mod rules;
#[cfg(test)]
mod rules_large;
#[cfg(test)]
mod seen;
#[cfg(test)]
mod splices;
#[cfg(test)]
mod splices_large;
#[cfg(test)]
mod splices_worked;
#[cfg(test)]
mod steps;
#[cfg(test)]
mod steps_worked;
#[cfg(test)]
mod stopped;
#[cfg(test)]
mod texts_large;
#[cfg(test)]
mod told;
#[cfg(test)]
mod unions;
#[cfg(test)]
mod worked;
