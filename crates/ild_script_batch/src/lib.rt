//! Lines inside a batch: what is answered over the batch, as over any store, and what that says of the store beneath it. Definitions and
//! laws, and no code (IPLD Schemas, "typed nodes").
#![tactic(auto)]

mod laws;

pub use laws::{
    answers_inside, batches_begin, batches_end, carried_agree, carried_over_batch, flushes_commit,
    later_beneath, stages_stay,
};
