//! What the reading of a value takes of one layer of it: values without parts, parts that are kept, members, fields, and the rows of
//! a HAMT (IPLD Schemas).
#![tactic(auto)]

mod depth;
mod fault;
mod field;
mod hamt;
mod keeping;
mod leaves;
mod member;

pub use depth::levels;
pub use fault::OpenFault;
pub use field::{left_out, part_piece};
pub use hamt::{hamt_rows, row_item, walk_fault};
pub use keeping::{add, add_field, add_pair, union_with, vals_for};
pub use leaves::kept_leaf;
pub use member::member_of;
