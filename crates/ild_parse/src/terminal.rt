//! Names, texts and numbers with their places.
ghost use Rattle.ild_parse.specs.inside.Seen.{stream_of, Gives};
ghost use Rattle.ild_parse_grammar.proofs.Read.{type_name_at, name_at, text_at, number_at};

use crate::input::Input;
use crate::value::number_of;
use crate::{Name, Number, ParseErr, Text, TypeName};
use std::alloc::Global;

#[tactic(auto, unfolding(ild_parse_grammar::proofs::Read::type_name_at))]
pub(crate) fn read_type_name(
    alloc: Global,
    input: Input<'_>,
) -> Result<(TypeName, Input<'_>), ParseErr>
    ensures { Gives (λ x. (x.0, stream_of x.1)) result (type_name_at (stream_of input.entry)) }
{
    if !input.is_type() {
        return Err(input.fault());
    }
    let at = input.place();
    let name = input.txt(alloc)?;
    Ok((TypeName { at, name }, input.rest()))
}

#[tactic(auto, unfolding(ild_parse_grammar::proofs::Read::name_at))]
pub(crate) fn read_name(alloc: Global, input: Input<'_>) -> Result<(Name, Input<'_>), ParseErr>
    ensures { Gives (λ x. (x.0, stream_of x.1)) result (name_at (stream_of input.entry)) }
{
    if !input.is_name() {
        return Err(input.fault());
    }
    let at = input.place();
    let name = input.txt(alloc)?;
    Ok((Name { at, name }, input.rest()))
}

#[tactic(auto, unfolding(ild_parse_grammar::proofs::Read::text_at))]
pub(crate) fn read_text(alloc: Global, input: Input<'_>) -> Result<(Text, Input<'_>), ParseErr>
    ensures { Gives (λ x. (x.0, stream_of x.1)) result (text_at (stream_of input.entry)) }
{
    if !input.is_text() {
        return Err(input.fault());
    }
    let at = input.place();
    let text = input.meaning(alloc)?;
    Ok((Text { at, text }, input.rest()))
}

#[tactic(auto, unfolding(ild_parse_grammar::proofs::Read::number_at))]
pub(crate) fn read_number(input: Input<'_>) -> Result<(Number, Input<'_>), ParseErr>
    ensures { Gives (λ x. (x.0, stream_of x.1)) result (number_at (stream_of input.entry)) }
{
    if !input.is_number() {
        return Err(input.fault());
    }
    let at = input.place();
    match number_of(input.bytes()) {
        None => Err(input.fault()),
        Some(value) => Ok((Number { at, value }, input.rest())),
    }
}
