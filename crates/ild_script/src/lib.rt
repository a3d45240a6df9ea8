//! The lines of a script and the replies to them, as texts.
#![tactic(auto)]

mod error;
mod escape;
mod laws;
mod line;
mod path;
mod reply;
mod word;

pub use error::LineErr;
pub use escape::unescape;
pub use laws::{commands_are_of_texts, segments_write_texts};
pub use line::{Line, line_of};
pub use reply::{No, Reply, reply_text};
pub use word::{Shape, Word};
