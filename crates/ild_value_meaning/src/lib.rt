//! Values as they are shown, and the values that data mean by the types of a schema: definitions, and laws as the contracts of
//! functions without a body (IPLD Schemas, "type-level representation").
#![tactic(auto)]

mod laws;

pub use laws::{
    filled_is_shown, keys_are_tested, meant_is_typed, nothing_is_meant_where_a_rule_is_broken,
    one_value_is_meant, shown_is_meant,
};
