//! The table of types of a schema (IPLD Schemas), and the values of its types.
#![tactic(auto)]

mod accepted;
mod by_name;
mod by_text;
mod def;
mod ends;
mod kinds;
mod label;
mod laws;
mod number;
mod prelude;
mod row;
mod rule;
mod schema;
mod texts;
mod val;

pub use accepted::Accepted;
pub use def::{
    EnumDef, EnumForm, EnumMember, EnumMembers, Field, Fields, KindWord, MapForm, Mark, Member,
    Members, Scalar, StructDef, StructForm, TypeDef, UnionDef, UnionForm, UnitForm,
};
pub use ild_data::List;
pub use kinds::Kinds;
pub use label::{text_of_field, text_of_member};
pub use laws::{accepted_are_legible, kinds_are_told};
pub use number::{Slot, TypeNo};
pub use prelude::prelude_rows;
pub use row::{Origin, Row};
pub use rule::Rule;
pub use schema::Schema;
pub use texts::texts_of;
pub use val::{Val, ValFields, ValPairs, ValPart, Vals};
