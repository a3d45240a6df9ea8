//! Tests of public calls on the schema language, from its tokens to accepted tables of types, on two schemas that are compared, and on the
//! values of schemas: a file a subject. First faults of schemas and their places are cases of the command `check`.
#![tactic(auto)]

#[cfg(test)]
mod compared;
#[cfg(test)]
mod compared_large;
#[cfg(test)]
mod compile;
#[cfg(test)]
mod kinds;
#[cfg(test)]
mod lex;
#[cfg(test)]
mod parts;
#[cfg(test)]
mod values;
