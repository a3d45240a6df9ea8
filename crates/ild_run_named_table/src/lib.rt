//! The table by which a root that names its schema is read as a value of a type, as a bare root is (IPLD Schemas).
#![tactic(auto)]

mod naming;

pub use ild_open_named::OpenFault;
pub use naming::named_table;
