//! The grammar of schemas (IPLD Schemas, the DSL): a type for each of its rules, and which trees tokens derive.
#![tactic(auto)]

mod ast;
mod laws;
mod reference;

pub use ast::{
    Ast, Body, Decl, EnumBody, EnumForm, EnumMember, Envelope, Field, Implicit, KindWord, MapBody,
    MapForm, Mark, Member, Name, Number, Opt, Pairs, StructBody, StructForm, Target, Text,
    TypeDecl, TypeName, UnionBody, UnionForm, UnitForm,
};
pub use laws::{fronts_begin, one_tree, one_wrong_place, some_tree_or_place, tree_or_place};
pub use reference::{Inline, Ref};
