//! References to types: the one rule of the grammar that nests.
ghost use Rattle.ild_parse.specs.inside.Seen.{stream_of, Gives};
ghost use Rattle.ild_parse_grammar.specs.ReferenceSeen.{refers_of};
ghost use Rattle.ild_parse.specs.inside.Rules.{key_at, pair_at, element_at};
ghost use Rattle.ild_parse_grammar.proofs.Refer.{inline_at, ref_with, list_with, map_with, named_at, link_at};

use crate::input::Input;
use crate::rule::followed;
use crate::terminal::read_type_name;
use crate::{Inline, ParseErr, Ref, TypeName};
use std::alloc::Global;

#[tactic(auto, unfolding(ild_parse_grammar::proofs::Refer::named_at))]
fn read_named(alloc: Global, input: Input<'_>) -> Result<(Inline, Input<'_>), ParseErr>
    ensures { Gives (λ x. (refers_of x.0, stream_of x.1)) result (named_at (stream_of input.entry)) }
{
    let (name, input) = read_type_name(alloc, input)?;
    Ok((Inline::Type(name), input))
}

#[tactic(auto, unfolding(ild_parse_grammar::proofs::Refer::link_at))]
fn read_link(alloc: Global, input: Input<'_>) -> Result<(Inline, Input<'_>), ParseErr>
    ensures { Gives (λ x. (refers_of x.0, stream_of x.1)) result (link_at (stream_of input.entry)) }
{
    let input = input.after("&")?;
    let (name, input) = read_type_name(alloc, input)?;
    Ok((Inline::Link(name), input))
}

/// "[" ref "]"
#[cycle(nested)]
#[tactic(auto, unfolding(crate::specs::inside::Rules::element_at))]
pub(crate) fn read_element(
    alloc: Global,
    room: u32,
    input: Input<'_>,
) -> Result<(Ref, Input<'_>), ParseErr>
    ensures { Gives (λ x. (x.0, stream_of x.1)) result (element_at room (stream_of input.entry)) }
{
    let input = input.after("[")?;
    let (element, input) = read_ref(alloc, room, input)?;
    followed(element, "]", input)
}

#[cycle(nested)]
#[tactic(auto, using(crate::proofs::Rules::list_by_element))]
fn read_list(alloc: Global, room: u32, input: Input<'_>) -> Result<(Inline, Input<'_>), ParseErr>
    ensures { Gives (λ x. (refers_of x.0, stream_of x.1)) result (list_with (inline_at room) (stream_of input.entry)) }
{
    let (element, input) = read_element(alloc, room, input)?;
    Ok((Inline::List(Box::new(alloc, element)?), input))
}

/// "{" Type ":"
#[tactic(auto, unfolding(crate::specs::inside::Rules::key_at))]
fn read_key(alloc: Global, input: Input<'_>) -> Result<(TypeName, Input<'_>), ParseErr>
    ensures { Gives (λ x. (x.0, stream_of x.1)) result (key_at (stream_of input.entry)) }
{
    let input = input.after("{")?;
    let (key, input) = read_type_name(alloc, input)?;
    followed(key, ":", input)
}

/// "{" Type ":" ref "}"
#[cycle(nested)]
#[tactic(auto, unfolding(crate::specs::inside::Rules::pair_at))]
pub(crate) fn read_pair(
    alloc: Global,
    room: u32,
    input: Input<'_>,
) -> Result<((TypeName, Ref), Input<'_>), ParseErr>
    ensures { Gives (λ x. (x.0, stream_of x.1)) result (pair_at room (stream_of input.entry)) }
{
    let (key, input) = read_key(alloc, input)?;
    let (value, input) = read_ref(alloc, room, input)?;
    followed((key, value), "}", input)
}

#[cycle(nested)]
#[tactic(auto, using(crate::proofs::Rules::map_by_pair))]
fn read_map(alloc: Global, room: u32, input: Input<'_>) -> Result<(Inline, Input<'_>), ParseErr>
    ensures { Gives (λ x. (refers_of x.0, stream_of x.1)) result (map_with (inline_at room) (stream_of input.entry)) }
{
    let ((key, value), input) = read_pair(alloc, room, input)?;
    Ok((Inline::Map(key, Box::new(alloc, value)?), input))
}

/// inline = Type | "&" Type | "[" ref "]" | "{" Type ":" ref "}", where so many inline types have room, one in the other
#[cycle(nested)]
#[tactic(auto, unfolding(ild_parse_grammar::proofs::Refer::inline_at))]
fn read_inline(alloc: Global, room: u32, input: Input<'_>) -> Result<(Inline, Input<'_>), ParseErr>
    ensures { Gives (λ x. (refers_of x.0, stream_of x.1)) result (inline_at room (stream_of input.entry)) }
{
    if room == 0 {
        return read_named(alloc, input);
    }
    if input.is("&") {
        return read_link(alloc, input);
    }
    if input.is("[") {
        return read_list(alloc, room - 1, input);
    }
    if input.is("{") {
        return read_map(alloc, room - 1, input);
    }
    read_named(alloc, input)
}

/// ref = [ "nullable" ] inline
#[cycle(nested)]
#[tactic(auto, unfolding(ild_parse_grammar::proofs::Refer::ref_with))]
pub(crate) fn read_ref(
    alloc: Global,
    room: u32,
    input: Input<'_>,
) -> Result<(Ref, Input<'_>), ParseErr>
    ensures { Gives (λ x. (x.0, stream_of x.1)) result (ref_with (inline_at room) (stream_of input.entry)) }
{
    let at = input.place();
    let nullable = input.is("nullable");
    let input = input.behind("nullable");
    let type_at = input.place();
    let (inline, input) = read_inline(alloc, room, input)?;
    let reference = Ref {
        at,
        nullable,
        type_at,
        inline,
    };
    Ok((reference, input))
}
