//! Bodies of types.
ghost use Rattle.std.specs.Prelude.{◌≡◌};
ghost use Rattle.ild_parse.specs.inside.Seen.{stream_of, Gives};
ghost use Rattle.ild_parse.specs.inside.Rules.{scalar_of, map_body_at, struct_behind, union_behind, enum_behind, worded_body_at};
ghost use Rattle.ild_parse_grammar.proofs.Grammar.{list_at, scalar_at, body_at};

use crate::input::Input;
use crate::nested::{read_element, read_pair};
use crate::part::DEEPEST;
use crate::rule::{braced, needed_form, optional_form};
use crate::terminal::read_type_name;
use crate::{Body, EnumBody, MapBody, ParseErr, StructBody, UnionBody};
use std::alloc::Global;

/// map = "{" Type ":" ref "}" [ "representation" form ]
#[tactic(auto, unfolding(crate::specs::inside::Rules::map_body_at))]
fn read_map_body(alloc: Global, input: Input<'_>) -> Result<(Body, Input<'_>), ParseErr>
    ensures { Gives (λ x. (x.0, stream_of x.1)) result (map_body_at (stream_of input.entry)) }
{
    let ((key, value), input) = read_pair(alloc, DEEPEST, input)?;
    let (form, input) = optional_form(alloc, input)?;
    Ok((Body::Map(MapBody { key, value, form }), input))
}

/// The body behind `struct`.
#[tactic(auto, unfolding(crate::specs::inside::Rules::struct_behind))]
fn read_struct(alloc: Global, input: Input<'_>) -> Result<(Body, Input<'_>), ParseErr>
    ensures { Gives (λ x. (x.0, stream_of x.1)) result (struct_behind (stream_of input.entry)) }
{
    let (fields, input) = braced(alloc, input)?;
    let (form, input) = optional_form(alloc, input)?;
    Ok((Body::Struct(StructBody { fields, form }), input))
}

/// The body behind `union`.
#[tactic(auto, unfolding(crate::specs::inside::Rules::union_behind))]
fn read_union(alloc: Global, input: Input<'_>) -> Result<(Body, Input<'_>), ParseErr>
    ensures { Gives (λ x. (x.0, stream_of x.1)) result (union_behind (stream_of input.entry)) }
{
    let (members, input) = braced(alloc, input)?;
    let (form, input) = needed_form(alloc, input)?;
    Ok((Body::Union(UnionBody { members, form }), input))
}

/// The body behind `enum`.
#[tactic(auto, unfolding(crate::specs::inside::Rules::enum_behind))]
fn read_enum(alloc: Global, input: Input<'_>) -> Result<(Body, Input<'_>), ParseErr>
    ensures { Gives (λ x. (x.0, stream_of x.1)) result (enum_behind (stream_of input.entry)) }
{
    let (members, input) = braced(alloc, input)?;
    let (form, input) = optional_form(alloc, input)?;
    Ok((Body::Enum(EnumBody { members, form }), input))
}

#[tactic(auto, using(crate::proofs::Rules::list_body_by_element))]
fn read_list_body(alloc: Global, input: Input<'_>) -> Result<(Body, Input<'_>), ParseErr>
    ensures { Gives (λ x. (x.0, stream_of x.1)) result (list_at (stream_of input.entry)) }
{
    let (element, input) = read_element(alloc, DEEPEST, input)?;
    Ok((Body::List(element), input))
}

/// The body that the next token names by itself.
#[tactic(auto, unfolding(crate::specs::inside::Rules::scalar_of))]
fn scalar_of(input: Input<'_>) -> Option<Body>
    ensures { result ≡ scalar_of (stream_of input.entry) }
{
    if input.is("bool") {
        return Some(Body::Bool);
    }
    if input.is("string") {
        return Some(Body::String);
    }
    if input.is("bytes") {
        return Some(Body::Bytes);
    }
    if input.is("int") {
        return Some(Body::Int);
    }
    if input.is("float") {
        return Some(Body::Float(input.place()));
    }
    if input.is("any") {
        return Some(Body::Any);
    }
    None
}

#[tactic(auto, using(crate::proofs::Rules::scalar_by_word))]
fn read_scalar(input: Input<'_>) -> Result<(Body, Input<'_>), ParseErr>
    ensures { Gives (λ x. (x.0, stream_of x.1)) result (scalar_at (stream_of input.entry)) }
{
    match scalar_of(input) {
        None => Err(input.fault()),
        Some(body) => Ok((body, input.rest())),
    }
}

/// The bodies that begin with a word.
#[tactic(auto, unfolding(crate::specs::inside::Rules::worded_body_at))]
fn read_worded_body(alloc: Global, input: Input<'_>) -> Result<(Body, Input<'_>), ParseErr>
    ensures { Gives (λ x. (x.0, stream_of x.1)) result (worded_body_at (stream_of input.entry)) }
{
    if input.is("struct") {
        return read_struct(alloc, input.rest());
    }
    if input.is("union") {
        return read_union(alloc, input.rest());
    }
    if input.is("enum") {
        return read_enum(alloc, input.rest());
    }
    if input.is("unit") {
        let (form, input) = needed_form(alloc, input.rest())?;
        return Ok((Body::Unit(form), input));
    }
    read_scalar(input)
}

/// body
#[tactic(auto, using(crate::proofs::Rules::body_by_words))]
pub(crate) fn read_body(alloc: Global, input: Input<'_>) -> Result<(Body, Input<'_>), ParseErr>
    ensures { Gives (λ x. (x.0, stream_of x.1)) result (body_at (stream_of input.entry)) }
{
    if input.is("=") {
        let (name, input) = read_type_name(alloc, input.rest())?;
        return Ok((Body::Copy(name), input));
    }
    if input.is("&") {
        let (name, input) = read_type_name(alloc, input.rest())?;
        return Ok((Body::Link(name), input));
    }
    if input.is("[") {
        return read_list_body(alloc, input);
    }
    if input.is("{") {
        return read_map_body(alloc, input);
    }
    read_worded_body(alloc, input)
}
