//! Typed views of a block: a piece of it that was checked against the type of a slot (IPLD Schemas, "typed nodes").
#![tactic(auto)]

mod at;
mod body;
mod check;
mod count;
mod element;
mod elements;
mod entries;
mod entry;
mod field;
mod form;
mod hamt;
mod items;
mod itself;
mod keyed;
mod member;
mod name;
mod of;
mod part;
mod rep;
mod scalars;
mod segment;
mod step;
mod view;

pub use elements::ViewItems;
pub use entries::ViewEntries;
pub use ild_view_walk::ViewErr;
pub use segment::index;
pub use step::{NoPath, Step};
pub use view::View;
