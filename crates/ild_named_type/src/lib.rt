//! The type of a root that names its schema: a struct in the schema's table, so that such a root is a value of that struct at the root
//! of a block (IPLD Schemas).
#![tactic(auto)]

mod laws;
mod row;
mod table;

pub use laws::roots_are_typed;
pub use table::named_schema;
