//! Typed values are judged and written: their texts, and their blocks from scratch (IPLD Schemas, "Representations").
#![tactic(auto)]

mod delims;
mod form;
mod hole;
mod joined;
mod judgement;
mod leaf;
mod left_out;
mod parts;
mod room;
mod text;

pub use form::form_of;
pub use joined::{represented_text, text_of};
pub use judgement::{Judged, judge};
pub use left_out::is_left_out;
pub use parts::field_at;
