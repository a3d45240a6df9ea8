//! Whole HAMTs (IPLD HashMap): built from their entries.
#![tactic(auto)]

mod build;
mod entries;
mod fault;
mod laws;
mod marked;
mod plan;
mod put;

pub use build::{any_long, from_entries, is_long, plan_rows};
pub use entries::{KeyedMark, Mark, begin_entry, mark_of};
pub use fault::PlanFault;
pub use laws::{children_first, plan_is_of_nodes};
pub use marked::Marked;
pub use plan::{plan_keyed, plan_marked};
pub use put::{put_all, put_one};
