//! Parts of values that are longer than a block may be: laws (IPLD HashMap, DAG-CBOR).
#![tactic(auto)]

mod laws;

pub use laws::parts_are_in_blocks;
