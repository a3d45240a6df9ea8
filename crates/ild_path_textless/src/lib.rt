//! Parts that stand as no text, and the delimiters around them: a law, and no code (IPLD Schemas, "stringjoin", "stringpairs",
//! "stringprefix").
#![tactic(auto)]

mod laws;

pub use laws::textless_parts_break_nothing;
