//! The tree of a source.
ghost use Rattle.std.specs.Prelude.{◌≡◌, ◌⊎◌, IfErr, IfOk, Ok, Err};
ghost use Rattle.ild_lex.specs.Lex.{AreTokens};
ghost use Rattle.ild_parse_grammar.specs.DerivePart.{Derives};
ghost use Rattle.ild_parse.specs.Wrong.{IsWrong};
ghost use Rattle.ild_parse.specs.inside.Seen.{stream_of, Gives};
ghost use Rattle.ild_parse.specs.inside.Rules.{type_at};
ghost use Rattle.ild_parse_grammar.proofs.Grammar.{decl_at, schema_at};

use crate::body::read_body;
use crate::input::Input;
use crate::rule::{Ending, Rule, parts};
use crate::terminal::read_type_name;
use crate::{Ast, Decl, ParseErr, TypeDecl};
use ild_lex::Tokens;
use std::alloc::Global;

/// "type" Type body
#[tactic(auto, unfolding(crate::specs::inside::Rules::type_at))]
fn read_type_decl(alloc: Global, input: Input<'_>) -> Result<(Decl, Input<'_>), ParseErr>
    ensures { Gives (λ x. (x.0, stream_of x.1)) result (type_at (stream_of input.entry)) }
{
    let input = input.after("type")?;
    let (name, input) = read_type_name(alloc, input)?;
    let (body, input) = read_body(alloc, input)?;
    Ok((Decl::Type(TypeDecl { name, body }), input))
}

impl Rule for Decl {
    ghost reading = { decl_at };

    #[tactic(auto, using(crate::proofs::Rules::decl_by_type))]
    fn read<'s>(alloc: Global, input: Input<'s>) -> Result<(Decl, Input<'s>), ParseErr> {
        if input.is("advanced") {
            let (name, input) = read_type_name(alloc, input.rest())?;
            return Ok((Decl::Advanced(name), input));
        }
        read_type_decl(alloc, input)
    }
}

#[tactic(auto, unfolding(ild_parse_grammar::proofs::Grammar::schema_at))]
fn read_schema(alloc: Global, input: Input<'_>) -> Result<Ast, ParseErr>
    ensures { Gives (λ a. a) result (schema_at (stream_of input.entry)) }
{
    let (decls, _) = parts(alloc, Ending::Source, input)?;
    Ok(Ast { decls })
}

/// The tree of a source: the one that the grammar derives from its tokens.
pub fn parse(alloc: Global, src: &str, tokens: &Tokens) -> Result<Ast, ParseErr>
    requires { AreTokens src.now tokens.now }
    // What is answered is derived.
    ensures derived { IfOk result (Derives src.now tokens.now) }
    // What is derived is answered, unless memory runs out.
    ensures only { (tree : Ast) → Derives src.now tokens.now tree → (result ≡ Ok tree) ⊎ (result ≡ Err ParseErr.Memory) }
    // The tokens before a fault begin a text of the grammar; with the token at it none goes on.
    ensures wrong { IfErr result (IsWrong src.now tokens.now) }
{
    ild_lex::spans(src, tokens);
    let input = Input {
        src: src.as_bytes(),
        rest: tokens.as_slice(),
    };
    read_schema(alloc, input)
}
