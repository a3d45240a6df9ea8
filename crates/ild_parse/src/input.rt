//! The tokens that are left to read.
ghost use Rattle.std.specs.Prelude.{◌≡◌, IfOk, true};
ghost use Rattle.std.specs.List.{AllByRecursion};
ghost use Rattle.ild_lex.specs.Span.{IsSpan};

use crate::ParseErr;
use crate::value::{txt_of, unescaped};
use ild_data::Txt;
use ild_lex::{Token, TokenKind};
use std::alloc::{AllocError, Global};

/// The tokens that are left, each a slice of the source.
#[derive(Clone, Copy)]
pub(crate) struct Input<'s> {
    pub(crate) src: &'s [u8],
    pub(crate) rest: &'s [Token],
    ghost spans: { ∥ AllByRecursion (IsSpan src.now) rest.now ∥₁ },
}

impl<'s> Input<'s> {
    ghost use Rattle.ild_parse.specs.inside.Seen.{stream_of};
    ghost use Rattle.ild_parse_grammar.proofs.Stream.{place, text_of, next_is, rest_of};
    ghost use Rattle.ild_parse_grammar.specs.Sign.{is_type, is_name, is_text, is_number, is_text_kind};
    ghost use Rattle.ild_parse.specs.inside.Seen.{Gives};
    ghost use Rattle.ild_parse_grammar.proofs.Read.{literal_at};
    ghost use Rattle.ild_parse_grammar.proofs.Refer.{behind_word};
    ghost use Rattle.ild_parse_grammar.proofs.Stream.{most, is_end};
    ghost use Rattle.ild_parse_grammar.specs.Value.{inside_of, meaning};

    /// The place of the next token, or the end of the source.
    pub(crate) fn place(self) -> usize
        ensures { result ≡ place (stream_of self.entry) }
    {
        match self.rest {
            [] => self.src.len(),
            [token, ..] => token.at,
        }
    }

    /// What is left behind the next token.
    pub(crate) fn rest(self) -> Input<'s>
        ensures { stream_of result ≡ rest_of (stream_of self.entry) }
    {
        let [_, rest @ ..] = self.rest else {
            return self;
        };
        Input {
            src: self.src,
            rest,
        }
    }

    /// The bytes of the next token, or none at the end.
    pub(crate) fn bytes(self) -> &'s [u8]
        ensures { result.now ≡ text_of (stream_of self.entry).signs }
    {
        match self.rest {
            [] => &[],
            [token, ..] => &self.src[token.at..token.end],
        }
    }

    /// Whether the next token is this word or mark.
    pub(crate) fn is(self, word: &str) -> bool
        ensures { result ≡ next_is word.now (stream_of self.entry) }
    {
        match self.rest {
            [] => false,
            [token, ..] => &self.src[token.at..token.end] == word.as_bytes(),
        }
    }

    /// The input behind this word or mark, which has to come next.
    #[tactic(auto, unfolding(ild_parse_grammar::proofs::Read::literal_at))]
    pub(crate) fn after(self, word: &str) -> Result<Input<'s>, ParseErr>
        ensures { Gives stream_of result (literal_at word.now (stream_of self.entry)) }
    {
        if self.is(word) {
            Ok(self.rest())
        } else {
            Err(self.fault())
        }
    }

    /// More than the parts that the tokens can be.
    pub(crate) fn most(self) -> usize
        ensures { result ≡ most (stream_of self.entry) }
    {
        self.rest.len() + 1
    }

    /// Whether no token is left.
    pub(crate) fn is_end(self) -> bool
        ensures { result ≡ is_end (stream_of self.entry) }
    {
        self.rest.is_empty()
    }

    /// The input behind this word, where it comes next.
    pub(crate) fn behind(self, word: &str) -> Input<'s>
        ensures { stream_of result ≡ behind_word word.now (stream_of self.entry) }
    {
        if self.is(word) { self.rest() } else { self }
    }

    /// No text of the grammar goes on with the next token.
    pub(crate) fn fault(self) -> ParseErr
        ensures { result ≡ ParseErr.Syntax (place (stream_of self.entry)) }
    {
        ParseErr::Syntax { at: self.place() }
    }

    /// Whether the next token is a word.
    pub(crate) fn is_name(self) -> bool
        ensures { result ≡ is_name (stream_of self.entry).signs }
    {
        match self.rest {
            [] => false,
            [token, ..] => token.kind == TokenKind::Word,
        }
    }

    /// Whether the next token is a word that begins with an upper-case letter.
    pub(crate) fn is_type(self) -> bool
        ensures { result ≡ is_type (stream_of self.entry).signs }
    {
        if !self.is_name() {
            return false;
        }
        match self.bytes() {
            [] => false,
            [b, ..] => b.is_ascii_uppercase(),
        }
    }

    /// Whether the next token is a text.
    pub(crate) fn is_text(self) -> bool
        ensures { result ≡ is_text (stream_of self.entry).signs }
    {
        match self.rest {
            [] => false,
            [token, ..] => token.kind == TokenKind::Text,
        }
    }

    /// Whether the next token is a number.
    pub(crate) fn is_number(self) -> bool
        ensures { result ≡ is_number (stream_of self.entry).signs }
    {
        match self.rest {
            [] => false,
            [token, ..] => token.kind == TokenKind::Number,
        }
    }

    /// The next token as a text of its own.
    pub(crate) fn txt(self, alloc: Global) -> Result<Txt, AllocError>
        ensures { IfOk result (λ t. t ≡ text_of (stream_of self.entry).signs) }
    {
        txt_of(alloc, self.bytes())
    }

    /// What stands between the quotes of the next token.
    fn inside(self) -> &'s [u8]
        ensures { result.now ≡ inside_of (text_of (stream_of self.entry).signs) }
    {
        match self.bytes() {
            [_, inside @ .., _] => inside,
            _ => &[],
        }
    }

    /// What the next token means, which is a text.
    pub(crate) fn meaning(self, alloc: Global) -> Result<Txt, AllocError>
        requires { is_text (stream_of self).signs ≡ true }
        ensures { IfOk result (λ t. t ≡ meaning (text_of (stream_of self.entry).signs)) }
    {
        unescaped(alloc, self.inside())
    }
}
