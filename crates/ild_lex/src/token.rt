//! Tokens and lists of them.
ghost use Rattle.std.specs.Prelude.{◌≡◌, ◌++◌, ◌∷◌, [], length, slice_get, option_map, OnOk, OnErr};

use std::alloc::{AllocError, Global};
use std::marker::Model;

/// What a token is.
#[derive(Clone, Copy, Debug, PartialEq, Eq)]
pub enum TokenKind {
    /// A letter or `_`, and letters, digits and `_`.
    Word,
    /// Digits, behind a `-` where the number is below 0.
    Number,
    /// Characters between two quotes.
    Text,
    /// One of `{ } [ ] ( ) : = | &`.
    Mark,
}

/// A token: the bytes of the source from `at` to before `end`.
#[derive(Clone, Copy, Debug)]
pub struct Token {
    pub kind: TokenKind,
    pub at: usize,
    pub end: usize,
}

/// The tokens of a source, in its order.
#[derive(Drop)]
pub struct Tokens {
    items: Vec<Token>,
}

impl Model for Tokens {
    ghost use Rattle.std.specs.Prelude.{List};
    ghost use Rattle.ild_lex.specs.declared.token.Token.{Token};

    ghost Value = { List Token };

    ghost view = { λ a. a.items.items };
}

impl Tokens {
    /// No token.
    pub(crate) fn new(alloc: Global) -> Tokens
        ensures { result ≡ [] }
    {
        Tokens {
            items: Vec::new(alloc),
        }
    }

    /// How many tokens there are.
    pub fn len(&self) -> usize
        ensures { result ≡ length self.now }
    {
        self.items.len()
    }

    /// The token at a place, or `None` past the last.
    pub fn get(&self, i: usize) -> Option<&Token>
        ensures { option_map (λ t. t.now) result ≡ slice_get self.now i }
    {
        if i < self.items.len() {
            Some(&self.items[i])
        } else {
            None
        }
    }

    /// The tokens as a borrow.
    pub fn as_slice(&self) -> &[Token]
        ensures { result.now ≡ self.now }
    {
        &self.items
    }

    /// Appends a token.
    pub(crate) fn push(&mut self, token: Token) -> Result<(), AllocError>
        ensures ok { OnOk result (self.new ≡ self.old ++ token ∷ []) }
        ensures err { OnErr result (self.new ≡ self.old) }
    {
        self.items.push(token)?;
        Ok(())
    }
}
