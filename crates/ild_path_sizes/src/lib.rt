//! How long parts of a value are in the block in which they stand: definitions and lemmas, and no code (DAG-CBOR; IPLD Schemas, "typed nodes").
#![tactic(auto)]
