//! The tokens of a schema (IPLD Schemas, the DSL): words, numbers, texts and marks, with their places.
#![tactic(auto)]

mod error;
mod lex;
mod scan;
mod token;

pub use error::LexErr;
pub use lex::{spans, tokens};
pub use token::{Token, TokenKind, Tokens};
