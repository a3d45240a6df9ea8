//! Settings in braces.
ghost use Rattle.ild_parse.specs.inside.Seen.{stream_of, Gives};
ghost use Rattle.ild_parse.specs.inside.Rules.{ordered_settings_at};
ghost use Rattle.ild_parse_grammar.proofs.Read.{setting_at, one_setting_at, both_settings_at, two_settings_at};

use crate::input::Input;
use crate::rule::followed;
use crate::terminal::read_text;
use crate::{ParseErr, Text};
use std::alloc::Global;

#[tactic(auto, unfolding(ild_parse_grammar::proofs::Read::setting_at))]
fn setting<'s>(alloc: Global, key: &str, input: Input<'s>) -> Result<(Text, Input<'s>), ParseErr>
    ensures { Gives (λ x. (x.0, stream_of x.1)) result (setting_at key.now (stream_of input.entry)) }
{
    let input = input.after(key)?;
    read_text(alloc, input)
}

/// "{" key Text "}"
#[tactic(auto, unfolding(ild_parse_grammar::proofs::Read::one_setting_at))]
pub(crate) fn one_setting<'s>(
    alloc: Global,
    key: &str,
    input: Input<'s>,
) -> Result<(Text, Input<'s>), ParseErr>
    ensures { Gives (λ x. (x.0, stream_of x.1)) result (one_setting_at key.now (stream_of input.entry)) }
{
    let input = input.after("{")?;
    let (text, input) = setting(alloc, key, input)?;
    followed(text, "}", input)
}

/// a Text b Text
#[tactic(auto, unfolding(crate::specs::inside::Rules::ordered_settings_at))]
fn ordered_settings<'s>(
    alloc: Global,
    a: &str,
    b: &str,
    input: Input<'s>,
) -> Result<((Text, Text), Input<'s>), ParseErr>
    ensures { Gives (λ x. (x.0, stream_of x.1)) result (ordered_settings_at a.now b.now (stream_of input.entry)) }
{
    let (first, input) = setting(alloc, a, input)?;
    let (second, input) = setting(alloc, b, input)?;
    Ok(((first, second), input))
}

#[tactic(auto, using(crate::proofs::Rules::both_by_order))]
fn both_settings<'s>(
    alloc: Global,
    a: &str,
    b: &str,
    input: Input<'s>,
) -> Result<((Text, Text), Input<'s>), ParseErr>
    ensures { Gives (λ x. (x.0, stream_of x.1)) result (both_settings_at a.now b.now (stream_of input.entry)) }
{
    if input.is(a) {
        return ordered_settings(alloc, a, b, input);
    }
    let ((second, first), input) = ordered_settings(alloc, b, a, input)?;
    Ok(((first, second), input))
}

/// "{" a Text b Text "}", in any order: the text of a, and that of b.
#[tactic(auto, unfolding(ild_parse_grammar::proofs::Read::two_settings_at))]
pub(crate) fn two_settings<'s>(
    alloc: Global,
    a: &str,
    b: &str,
    input: Input<'s>,
) -> Result<((Text, Text), Input<'s>), ParseErr>
    ensures { Gives (λ x. (x.0, stream_of x.1)) result (two_settings_at a.now b.now (stream_of input.entry)) }
{
    let input = input.after("{")?;
    let (texts, input) = both_settings(alloc, a, b, input)?;
    followed(texts, "}", input)
}
