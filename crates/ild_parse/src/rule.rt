//! What rules share: parts that repeat in braces, and representations behind their word.
ghost use Rattle.std.specs.Prelude.{◌≡◌, ℕ, Result};
ghost use Rattle.ild_parse_grammar.proofs.Stream.{Stream, most};
ghost use Rattle.ild_parse_grammar.proofs.Read.{many_at};
ghost use Rattle.ild_parse_grammar.proofs.Form.{optional_form_at, needed_form_at};
ghost use Rattle.ild_parse_grammar.proofs.Grammar.{braced_at};
ghost use Rattle.ild_parse.specs.inside.Seen.{stream_of, Gives};
ghost use Rattle.ild_parse.specs.inside.Ends.{ends_by};
ghost use Rattle.ild_parse.specs.inside.Rules.{followed_at};

use crate::input::Input;
use crate::{List, ParseErr};
use std::alloc::Global;

/// A part of the tree that is read by one rule.
pub(crate) trait Rule: Drop {
    ghost reading: { Stream → Result (Self × Stream) ℕ };

    fn read<'s>(alloc: Global, input: Input<'s>) -> Result<(Self, Input<'s>), ParseErr>
        ensures { Gives (λ x. (x.0, stream_of x.1)) result (reading (stream_of input.entry)) };
}

/// Where parts that repeat end: at a closing brace, or at the end of the source.
#[derive(Clone, Copy)]
pub(crate) enum Ending {
    Brace,
    Source,
}

fn ends(ending: Ending, input: Input<'_>) -> bool
    ensures { result ≡ ends_by ending (stream_of input.entry) }
{
    match ending {
        Ending::Brace => input.is("}"),
        Ending::Source => input.is_end(),
    }
}

/// { part }
pub(crate) fn parts<P: Rule>(
    alloc: Global,
    ending: Ending,
    input: Input<'_>,
) -> Result<(List<P>, Input<'_>), ParseErr>
    ensures { Gives (λ x. (x.0, stream_of x.1)) result (many_at P.reading (ends_by ending) (most (stream_of input.entry)) (stream_of input.entry)) }
{
    let mut parts = Vec::new(alloc);
    let mut rest = input;
    for _ in 0..input.most() {
        if ends(ending, rest) {
            return Ok((List::from_vec(parts), rest));
        }
        let (part, after) = P::read(alloc, rest)?;
        parts.push(part)?;
        rest = after;
    }
    Err(rest.fault())
}

/// A part that was read, where this mark follows it.
pub(crate) fn followed<'s, T: Drop>(
    part: T,
    mark: &str,
    input: Input<'s>,
) -> Result<(T, Input<'s>), ParseErr>
    ensures { Gives (λ x. (x.0, stream_of x.1)) result (followed_at mark.now part (stream_of input.entry)) }
{
    let input = input.after(mark)?;
    Ok((part, input))
}

/// "{" { part } "}"
#[tactic(auto, unfolding(ild_parse_grammar::proofs::Grammar::braced_at))]
pub(crate) fn braced<P: Rule>(
    alloc: Global,
    input: Input<'_>,
) -> Result<(List<P>, Input<'_>), ParseErr>
    ensures { Gives (λ x. (x.0, stream_of x.1)) result (braced_at P.reading (stream_of input.entry)) }
{
    let input = input.after("{")?;
    let (parts, input) = parts::<P>(alloc, Ending::Brace, input)?;
    followed(parts, "}", input)
}

/// [ "representation" form ]
#[tactic(auto, unfolding(ild_parse_grammar::proofs::Form::optional_form_at))]
pub(crate) fn optional_form<P: Rule>(
    alloc: Global,
    input: Input<'_>,
) -> Result<(Option<P>, Input<'_>), ParseErr>
    ensures { Gives (λ x. (x.0, stream_of x.1)) result (optional_form_at P.reading (stream_of input.entry)) }
{
    if !input.is("representation") {
        return Ok((None, input));
    }
    let (form, input) = P::read(alloc, input.rest())?;
    Ok((Some(form), input))
}

/// "representation" form
#[tactic(auto, unfolding(ild_parse_grammar::proofs::Form::needed_form_at))]
pub(crate) fn needed_form<P: Rule>(
    alloc: Global,
    input: Input<'_>,
) -> Result<(P, Input<'_>), ParseErr>
    ensures { Gives (λ x. (x.0, stream_of x.1)) result (needed_form_at P.reading (stream_of input.entry)) }
{
    let input = input.after("representation")?;
    P::read(alloc, input)
}
