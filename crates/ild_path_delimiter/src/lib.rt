//! Whether an edit of a part in text form breaks a delimiter rule of a text around it (IPLD Schemas, "stringjoin", "stringpairs").
#![tactic(auto)]

mod along;
mod delimiter;
mod laws;
mod level;

pub use delimiter::{TextEdit, breaks_delimiter};
pub use laws::{only_texts_break, texts_break_nothing};
