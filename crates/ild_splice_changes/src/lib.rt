//! The five changes of a tree, each at one place, and what they do to its block: definitions, and laws as the contracts of
//! functions without a body (DAG-CBOR).
#![tactic(auto)]

mod laws;

pub use laws::{
    changes_are_spliced, changes_nest, entries_come, entries_go, items_come, items_go,
    one_place_is_one_change, parts_are_spans,
};
