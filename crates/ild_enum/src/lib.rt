//! The layers of enums and units: the member of an enum that a piece of a block stands for, and whether a piece stands for a
//! unit (IPLD Schemas, "Enum Representation Strategies" and "Unit Representation Strategies").
#![tactic(auto)]

mod member;
mod units;

pub use member::layer;
pub use units::unit;
