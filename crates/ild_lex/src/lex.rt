//! The tokens of a source.
ghost use Rattle.std.specs.Prelude.{List};
ghost use Rattle.ild_lex.specs.declared.token.Token.{Token};
ghost use Rattle.std.specs.List.{AllByRecursion};
ghost use Rattle.ild_lex.specs.Lex.{Stop, Lexes, Reads, ReadsTokens, AreTokens};
ghost use Rattle.ild_lex.specs.Span.{IsSpan};

use crate::scan::{Next, first_at};
use crate::{LexErr, Tokens};
use std::alloc::Global;

fn lexed(alloc: Global, bytes: &[u8]) -> Result<Tokens, LexErr>
    ensures { Reads (λ v. v) bytes.now result }
{
    let mut found = Tokens::new(alloc);
    let mut left = bytes;
    loop {
        match first_at(bytes.len(), left) {
            Next::Token(token, after) => {
                found.push(token)?;
                left = after;
            }
            Next::End => return Ok(found),
            Next::Char(at) => return Err(LexErr::Char { at }),
            Next::Unended(at) => return Err(LexErr::Unended { at }),
        }
    }
}

/// The tokens of a source: the longest at each place, up to the first fault. Between them stand white space and
/// comments alone.
pub fn tokens(alloc: Global, src: &str) -> Result<Tokens, LexErr>
    // What is answered is true of the source.
    ensures found { Reads (λ v. v) src.now result }
    // Nothing else is true of it, so each source has one answer, unless memory runs out.
    ensures only { (ts : List Token) (stop : Stop) → Lexes 0 src.now ts stop → ReadsTokens (λ v. v) ts stop result }
{
    lexed(alloc, src.as_bytes())
}

/// Each token of a source is a slice of it, and a text by itself. A caller that needs the fact makes this call, which
/// does no work.
pub fn spans(src: &str, tokens: &Tokens)
    requires { AreTokens src.now tokens.now }
    ensures { AllByRecursion (IsSpan src.now) tokens.now }
{
    let _all = tokens.len();
    let _bytes = src.as_bytes();
}
