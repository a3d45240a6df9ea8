//! Reading a schema (IPLD Schemas, the DSL): the tree that the grammar derives from its tokens, or the place of its fault.
#![tactic(auto)]

mod body;
mod error;
mod form;
mod input;
mod nested;
mod part;
mod rule;
mod schema;
mod setting;
mod terminal;
mod value;

pub use error::ParseErr;
pub use ild_data::List;
pub use ild_parse_grammar::{
    Ast, Body, Decl, EnumBody, EnumForm, EnumMember, Envelope, Field, Implicit, Inline, KindWord,
    MapBody, MapForm, Mark, Member, Name, Number, Opt, Pairs, Ref, StructBody, StructForm, Target,
    Text, TypeDecl, TypeName, UnionBody, UnionForm, UnitForm,
};
pub use schema::parse;
