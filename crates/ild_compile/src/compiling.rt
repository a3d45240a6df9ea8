//! From the bytes of a schema to its accepted table of types.
ghost use Rattle.std.specs.Prelude.{◌≡◌, ◌⊎◌, ℕ, List, IfOk, IfErr, IsUtf8, Err};
ghost use Rattle.ild_lex.specs.Lex.{AreTokens};
ghost use Rattle.ild_parse_grammar.specs.declared.ast.Ast.{Ast};
ghost use Rattle.ild_schema.specs.declared.row.Row.{Row};
ghost use Rattle.ild_resolve.specs.Table.{Resolves};
ghost use Rattle.ild_accept.specs.Judged.{IsFaultOf};
ghost use Rattle.ild_compile.specs.Compile.{Answers, HasTable, HasTree};

use crate::{CompileErr, Flaw, SchemaFault};
use ild_accept::{AcceptErr, accept};
use ild_lex::{LexErr, Tokens, tokens};
use ild_parse::{ParseErr, parse};
use ild_parse_grammar::Ast;
use ild_resolve::{ResolveErr, resolve};
use ild_schema::{Accepted, Schema};
use std::alloc::Global;

fn fault(flaw: Flaw, at: usize) -> CompileErr
    ensures { result ≡ CompileErr.Fault (record { flaw = flaw; at = at }) }
{
    CompileErr::Fault(SchemaFault { flaw, at })
}

/// The text that the bytes are.
fn text_of(bytes: &[u8]) -> Result<&str, CompileErr>
    ensures same { IfOk result (λ src. src.now ≡ bytes.now) }
    ensures fault { IfErr result (λ e. Answers bytes.now (Err e)) }
{
    match std::str::from_utf8(bytes) {
        Ok(src) => Ok(src),
        Err(e) => Err(fault(Flaw::Char, e.valid_up_to())),
    }
}

/// The tokens of the text.
fn tokens_of(alloc: Global, src: &str) -> Result<Tokens, CompileErr>
    ensures tokens { IfOk result (AreTokens src.now) }
    ensures fault { IfErr result (λ e. Answers src.now (Err e)) }
{
    let _utf8 = src.as_bytes();
    match tokens(alloc, src) {
        Ok(tokens) => Ok(tokens),
        Err(LexErr::Char { at }) => Err(fault(Flaw::Char, at)),
        Err(LexErr::Unended { at }) => Err(fault(Flaw::Unended, at)),
        Err(LexErr::Memory) => Err(CompileErr::Memory),
    }
}

/// The tree that the grammar derives from the tokens of the text, which are gone when it stands.
fn tree_of(alloc: Global, src: &str) -> Result<Ast, CompileErr>
    ensures tree { IfOk result (HasTree src.now) }
    ensures fault { IfErr result (λ e. Answers src.now (Err e)) }
{
    let _utf8 = src.as_bytes();
    let tokens = tokens_of(alloc, src)?;
    match parse(alloc, src, &tokens) {
        Ok(tree) => Ok(tree),
        Err(ParseErr::Syntax { at }) => Err(fault(Flaw::Syntax, at)),
        Err(ParseErr::Memory) => Err(CompileErr::Memory),
    }
}

/// What is wrong with the names of a tree.
fn fault_of(e: ResolveErr) -> CompileErr
    ensures { (src : List ℕ) (ast : Ast) → HasTree src ast → ((e ≡ ResolveErr.Memory) ⊎ Resolves ast (Err e)) → Answers src (Err result) }
{
    match e {
        ResolveErr::Twice { at } => fault(Flaw::Twice, at),
        ResolveErr::Unknown { at } => fault(Flaw::Unknown, at),
        ResolveErr::Float { at } => fault(Flaw::Float, at),
        ResolveErr::CopyCycle { at } => fault(Flaw::CopyCycle, at),
        ResolveErr::Advanced { at } => fault(Flaw::Advanced, at),
        ResolveErr::Many { at } => fault(Flaw::Many, at),
        ResolveErr::Memory => CompileErr::Memory,
    }
}

/// The table of types of a schema, before it is judged by the rules of accepted schemas; or the first fault of the
/// schema's characters, else of its tokens, else of its grammar, else of its names.
pub fn table_of(alloc: Global, bytes: &[u8]) -> Result<Schema, CompileErr>
    ensures table { IfOk result (HasTable bytes.now) }
    ensures fault { IfErr result (λ e. Answers bytes.now (Err e)) }
{
    let src = text_of(bytes)?;
    let tree = tree_of(alloc, src)?;
    match resolve(alloc, tree) {
        Ok(schema) => Ok(schema),
        Err(e) => Err(fault_of(e)),
    }
}

/// The rule that fails for a table.
fn failing(e: AcceptErr) -> CompileErr
    ensures { (src : List ℕ) (rows : List Row) → HasTable src rows → IsFaultOf rows e → Answers src (Err result) }
{
    match e {
        AcceptErr::Fault { rule, at, .. } => fault(Flaw::Rule(rule), at),
        AcceptErr::Memory => CompileErr::Memory,
    }
}

/// The accepted table of types of a schema, or its first fault: of its characters, else of its tokens, else of its
/// grammar, else of its names, else by the rules of accepted schemas.
pub fn compile(alloc: Global, bytes: &[u8]) -> Result<Accepted, CompileErr>
    ensures { Answers bytes.now result }
{
    let schema = table_of(alloc, bytes)?;
    match accept(alloc, schema) {
        Ok(accepted) => Ok(accepted),
        Err(e) => Err(failing(e)),
    }
}
