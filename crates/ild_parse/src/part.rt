//! Fields of structs, and members of unions and enums.
ghost use Rattle.std.specs.Prelude.{◌≡◌, IfOk, [], ◌∷◌};
ghost use Rattle.ild_parse.specs.inside.Seen.{stream_of, Gives};
ghost use Rattle.ild_parse_grammar.proofs.Part.{implicit_at, rename_opt_at, implicit_opt_at, opt_at, other_opt_at, opts_behind, opts_at, field_at, target_at, kind_of, mark_at, member_at, quoted_at, enum_member_at};

use crate::input::Input;
use crate::nested::read_ref;
use crate::rule::{Rule, followed};
use crate::terminal::{read_name, read_number, read_text, read_type_name};
use crate::{
    EnumMember, Field, Implicit, KindWord, List, Mark, Member, Opt, ParseErr, Target, Text,
};
use std::alloc::{AllocError, Global};

/// How deep inline types nest.
pub(crate) const DEEPEST: u32 = 32;

#[tactic(auto, unfolding(ild_parse_grammar::proofs::Part::implicit_at))]
fn read_implicit(alloc: Global, input: Input<'_>) -> Result<(Implicit, Input<'_>), ParseErr>
    ensures { Gives (λ x. (x.0, stream_of x.1)) result (implicit_at (stream_of input.entry)) }
{
    if input.is_text() {
        let (text, input) = read_text(alloc, input)?;
        return Ok((Implicit::Text(text), input));
    }
    if input.is_number() {
        return match read_number(input) {
            Ok((number, input)) => Ok((Implicit::Number(number), input)),
            Err(error) => Err(error),
        };
    }
    if input.is("true") {
        return Ok((Implicit::True, input.rest()));
    }
    if input.is("false") {
        return Ok((Implicit::False, input.rest()));
    }
    Err(input.fault())
}

#[tactic(auto, unfolding(ild_parse_grammar::proofs::Part::rename_opt_at))]
fn rename_opt(alloc: Global, input: Input<'_>) -> Result<(Opt, Input<'_>), ParseErr>
    ensures { Gives (λ x. (x.0, stream_of x.1)) result (rename_opt_at (stream_of input.entry)) }
{
    let input = input.after("rename")?;
    let (text, input) = read_text(alloc, input)?;
    Ok((Opt::Rename(text), input))
}

#[tactic(auto, unfolding(ild_parse_grammar::proofs::Part::implicit_opt_at))]
fn implicit_opt(alloc: Global, input: Input<'_>) -> Result<(Opt, Input<'_>), ParseErr>
    ensures { Gives (λ x. (x.0, stream_of x.1)) result (implicit_opt_at (stream_of input.entry)) }
{
    let input = input.after("implicit")?;
    let (value, input) = read_implicit(alloc, input)?;
    Ok((Opt::Implicit(value), input))
}

#[tactic(auto, unfolding(ild_parse_grammar::proofs::Part::opt_at))]
fn first_opt(alloc: Global, input: Input<'_>) -> Result<(Opt, Input<'_>), ParseErr>
    ensures { Gives (λ x. (x.0, stream_of x.1)) result (opt_at (stream_of input.entry)) }
{
    if input.is("rename") {
        return rename_opt(alloc, input);
    }
    implicit_opt(alloc, input)
}

#[tactic(auto, unfolding(ild_parse_grammar::proofs::Part::other_opt_at))]
fn other_opt<'s>(alloc: Global, first: &Opt, input: Input<'s>) -> Result<(Opt, Input<'s>), ParseErr>
    ensures { Gives (λ x. (x.0, stream_of x.1)) result (other_opt_at first.now (stream_of input.entry)) }
{
    match first {
        Opt::Rename(_) => implicit_opt(alloc, input),
        Opt::Implicit(_) => rename_opt(alloc, input),
    }
}

fn one_opt(alloc: Global, opt: Opt) -> Result<List<Opt>, AllocError>
    ensures { IfOk result (λ opts. opts ≡ opt ∷ []) }
{
    Ok(List::from_vec(vec![in alloc; opt]?))
}

fn two_opts(alloc: Global, first: Opt, second: Opt) -> Result<List<Opt>, AllocError>
    ensures { IfOk result (λ opts. opts ≡ first ∷ second ∷ []) }
{
    Ok(List::from_vec(vec![in alloc; first, second]?))
}

#[tactic(auto, unfolding(ild_parse_grammar::proofs::Part::opts_behind))]
fn more_opts(
    alloc: Global,
    first: Opt,
    input: Input<'_>,
) -> Result<(List<Opt>, Input<'_>), ParseErr>
    ensures { Gives (λ x. (x.0, stream_of x.1)) result (opts_behind first (stream_of input.entry)) }
{
    if input.is(")") {
        return Ok((one_opt(alloc, first)?, input.rest()));
    }
    let (second, input) = other_opt(alloc, &first, input)?;
    followed(two_opts(alloc, first, second)?, ")", input)
}

#[tactic(auto, unfolding(ild_parse_grammar::proofs::Part::opts_at))]
fn read_opts(alloc: Global, input: Input<'_>) -> Result<(List<Opt>, Input<'_>), ParseErr>
    ensures { Gives (λ x. (x.0, stream_of x.1)) result (opts_at (stream_of input.entry)) }
{
    if !input.is("(") {
        return Ok((List::new(alloc), input));
    }
    let (first, input) = first_opt(alloc, input.rest())?;
    more_opts(alloc, first, input)
}

impl Rule for Field {
    ghost reading = { field_at };

    #[tactic(auto, unfolding(ild_parse_grammar::proofs::Part::field_at))]
    fn read<'s>(alloc: Global, input: Input<'s>) -> Result<(Field, Input<'s>), ParseErr> {
        let (name, input) = read_name(alloc, input)?;
        let optional = input.is("optional");
        let (value, input) = read_ref(alloc, DEEPEST, input.behind("optional"))?;
        let (opts, input) = read_opts(alloc, input)?;
        let field = Field {
            name,
            optional,
            value,
            opts,
        };
        Ok((field, input))
    }
}

#[tactic(auto, unfolding(ild_parse_grammar::proofs::Part::target_at))]
fn read_target(alloc: Global, input: Input<'_>) -> Result<(Target, Input<'_>), ParseErr>
    ensures { Gives (λ x. (x.0, stream_of x.1)) result (target_at (stream_of input.entry)) }
{
    if input.is("&") {
        let (name, input) = read_type_name(alloc, input.rest())?;
        return Ok((Target::Link(name), input));
    }
    let (name, input) = read_type_name(alloc, input)?;
    Ok((Target::Type(name), input))
}

#[tactic(auto, unfolding(ild_parse_grammar::proofs::Part::kind_of))]
fn kind_of(input: Input<'_>) -> Option<KindWord>
    ensures { result ≡ kind_of (stream_of input.entry) }
{
    if input.is("null") {
        return Some(KindWord::Null);
    }
    if input.is("bool") {
        return Some(KindWord::Bool);
    }
    if input.is("int") {
        return Some(KindWord::Int);
    }
    if input.is("float") {
        return Some(KindWord::Float(input.place()));
    }
    if input.is("string") {
        return Some(KindWord::String);
    }
    if input.is("bytes") {
        return Some(KindWord::Bytes);
    }
    if input.is("list") {
        return Some(KindWord::List);
    }
    if input.is("map") {
        return Some(KindWord::Map);
    }
    if input.is("link") {
        return Some(KindWord::Link);
    }
    None
}

#[tactic(auto, unfolding(ild_parse_grammar::proofs::Part::mark_at))]
fn read_mark(alloc: Global, input: Input<'_>) -> Result<(Option<Mark>, Input<'_>), ParseErr>
    ensures { Gives (λ x. (x.0, stream_of x.1)) result (mark_at (stream_of input.entry)) }
{
    if input.is_text() {
        let (text, input) = read_text(alloc, input)?;
        return Ok((Some(Mark::Text(text)), input));
    }
    match kind_of(input) {
        None => Ok((None, input)),
        Some(kind) => Ok((Some(Mark::Kind(kind)), input.rest())),
    }
}

impl Rule for Member {
    ghost reading = { member_at };

    #[tactic(auto, unfolding(ild_parse_grammar::proofs::Part::member_at))]
    fn read<'s>(alloc: Global, input: Input<'s>) -> Result<(Member, Input<'s>), ParseErr> {
        let input = input.after("|")?;
        let at = input.place();
        let (target, input) = read_target(alloc, input)?;
        let (mark, input) = read_mark(alloc, input)?;
        Ok((Member { at, target, mark }, input))
    }
}

#[tactic(auto, unfolding(ild_parse_grammar::proofs::Part::quoted_at))]
fn read_quoted(alloc: Global, input: Input<'_>) -> Result<(Option<Text>, Input<'_>), ParseErr>
    ensures { Gives (λ x. (x.0, stream_of x.1)) result (quoted_at (stream_of input.entry)) }
{
    if !input.is("(") {
        return Ok((None, input));
    }
    let (text, input) = read_text(alloc, input.rest())?;
    followed(Some(text), ")", input)
}

impl Rule for EnumMember {
    ghost reading = { enum_member_at };

    #[tactic(auto, unfolding(ild_parse_grammar::proofs::Part::enum_member_at))]
    fn read<'s>(alloc: Global, input: Input<'s>) -> Result<(EnumMember, Input<'s>), ParseErr> {
        let input = input.after("|")?;
        let (name, input) = read_name(alloc, input)?;
        let (text, input) = read_quoted(alloc, input)?;
        Ok((EnumMember { name, text }, input))
    }
}
