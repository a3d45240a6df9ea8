//! A value that stands as a bare root is given one that names its schema (IPLD Schemas).
#![tactic(auto)]

mod fault;
mod loading;
mod naming;
mod writing;

pub use fault::NameFault;
pub use naming::name_root;
