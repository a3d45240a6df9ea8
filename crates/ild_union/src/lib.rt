//! The layers of unions: the member for which a piece of a block stands, and the member's own piece (IPLD Schemas, "Union
//! Representation Strategies").
#![tactic(auto)]

mod envelope;
mod inline;
mod keyed;
mod kinded;
mod prefixed;
mod union;

pub use union::layer;
