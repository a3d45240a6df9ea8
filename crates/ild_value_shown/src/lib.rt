//! Walks over a value: an equal one made anew, and its shown form (IPLD Schemas, "type-level representation").
#![tactic(auto)]

mod copying;
mod order;
mod show;

pub use copying::copy;
pub use show::shown;
