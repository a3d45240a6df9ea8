//! Tests of trees of blocks that are read: values that are opened, in which HAMTs stand more than once, values that are loaded, and two
//! trees that are compared.
#![tactic(auto)]

#[cfg(test)]
mod compared;
#[cfg(test)]
mod depths;
#[cfg(test)]
mod hamts;
#[cfg(test)]
mod large;
#[cfg(test)]
mod loaded;
#[cfg(test)]
mod nested;
#[cfg(test)]
mod shared;
#[cfg(test)]
mod told;
