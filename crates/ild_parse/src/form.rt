//! Representations.
ghost use Rattle.ild_parse.specs.inside.Seen.{stream_of, Gives};
ghost use Rattle.ild_parse.specs.inside.Rules.{union_settings_at};
ghost use Rattle.ild_parse_grammar.proofs.Form.{pairs_at, map_form_at, struct_form_at, envelope_at, union_form_at, enum_form_at, unit_form_at};

use crate::input::Input;
use crate::rule::Rule;
use crate::setting::{one_setting, two_settings};
use crate::terminal::read_type_name;
use crate::{EnumForm, Envelope, MapForm, Pairs, ParseErr, StructForm, UnionForm, UnitForm};
use std::alloc::Global;

#[tactic(auto, unfolding(ild_parse_grammar::proofs::Form::pairs_at))]
fn read_pairs(alloc: Global, input: Input<'_>) -> Result<(Pairs, Input<'_>), ParseErr>
    ensures { Gives (λ x. (x.0, stream_of x.1)) result (pairs_at (stream_of input.entry)) }
{
    let ((inner, entry), input) = two_settings(alloc, "innerDelim", "entryDelim", input)?;
    Ok((Pairs { inner, entry }, input))
}

impl Rule for MapForm {
    ghost reading = { map_form_at };

    #[tactic(auto, unfolding(ild_parse_grammar::proofs::Form::map_form_at))]
    fn read<'s>(alloc: Global, input: Input<'s>) -> Result<(MapForm, Input<'s>), ParseErr> {
        if input.is("map") {
            return Ok((MapForm::Map, input.rest()));
        }
        if input.is("listpairs") {
            return Ok((MapForm::ListPairs, input.rest()));
        }
        if input.is("stringpairs") {
            let (pairs, input) = read_pairs(alloc, input.rest())?;
            return Ok((MapForm::StringPairs(pairs), input));
        }
        if input.is("advanced") {
            let (name, input) = read_type_name(alloc, input.rest())?;
            return Ok((MapForm::Advanced(name), input));
        }
        Err(input.fault())
    }
}

impl Rule for StructForm {
    ghost reading = { struct_form_at };

    #[tactic(auto, unfolding(ild_parse_grammar::proofs::Form::struct_form_at))]
    fn read<'s>(alloc: Global, input: Input<'s>) -> Result<(StructForm, Input<'s>), ParseErr> {
        if input.is("map") {
            return Ok((StructForm::Map, input.rest()));
        }
        if input.is("tuple") {
            return Ok((StructForm::Tuple, input.rest()));
        }
        if input.is("listpairs") {
            return Ok((StructForm::ListPairs, input.rest()));
        }
        if input.is("stringpairs") {
            let (pairs, input) = read_pairs(alloc, input.rest())?;
            return Ok((StructForm::StringPairs(pairs), input));
        }
        if input.is("stringjoin") {
            let (text, input) = one_setting(alloc, "join", input.rest())?;
            return Ok((StructForm::StringJoin(text), input));
        }
        Err(input.fault())
    }
}

#[tactic(auto, unfolding(ild_parse_grammar::proofs::Form::envelope_at))]
fn read_envelope(alloc: Global, input: Input<'_>) -> Result<(Envelope, Input<'_>), ParseErr>
    ensures { Gives (λ x. (x.0, stream_of x.1)) result (envelope_at (stream_of input.entry)) }
{
    let ((discriminant, content), input) = two_settings(
        alloc,
        "discriminantKey",
        "contentKey",
        input,
    )?;
    Ok((
        Envelope {
            discriminant,
            content,
        },
        input,
    ))
}

/// The representations of unions that have settings.
#[tactic(auto, unfolding(crate::specs::inside::Rules::union_settings_at))]
fn read_union_settings(alloc: Global, input: Input<'_>) -> Result<(UnionForm, Input<'_>), ParseErr>
    ensures { Gives (λ x. (x.0, stream_of x.1)) result (union_settings_at (stream_of input.entry)) }
{
    if input.is("envelope") {
        let (envelope, input) = read_envelope(alloc, input.rest())?;
        return Ok((UnionForm::Envelope(envelope), input));
    }
    if input.is("inline") {
        let (text, input) = one_setting(alloc, "discriminantKey", input.rest())?;
        return Ok((UnionForm::Inline(text), input));
    }
    Err(input.fault())
}

impl Rule for UnionForm {
    ghost reading = { union_form_at };

    #[tactic(auto, unfolding(ild_parse_grammar::proofs::Form::union_form_at, crate::specs::inside::Rules::union_settings_at))]
    fn read<'s>(alloc: Global, input: Input<'s>) -> Result<(UnionForm, Input<'s>), ParseErr> {
        if input.is("keyed") {
            return Ok((UnionForm::Keyed, input.rest()));
        }
        if input.is("kinded") {
            return Ok((UnionForm::Kinded, input.rest()));
        }
        if input.is("stringprefix") {
            return Ok((UnionForm::StringPrefix, input.rest()));
        }
        if input.is("bytesprefix") {
            return Ok((UnionForm::BytesPrefix, input.rest()));
        }
        read_union_settings(alloc, input)
    }
}

impl Rule for EnumForm {
    ghost reading = { enum_form_at };

    #[tactic(auto, unfolding(ild_parse_grammar::proofs::Form::enum_form_at))]
    fn read<'s>(_alloc: Global, input: Input<'s>) -> Result<(EnumForm, Input<'s>), ParseErr> {
        if input.is("string") {
            return Ok((EnumForm::String, input.rest()));
        }
        if input.is("int") {
            return Ok((EnumForm::Int, input.rest()));
        }
        Err(input.fault())
    }
}

impl Rule for UnitForm {
    ghost reading = { unit_form_at };

    #[tactic(auto, unfolding(ild_parse_grammar::proofs::Form::unit_form_at))]
    fn read<'s>(_alloc: Global, input: Input<'s>) -> Result<(UnitForm, Input<'s>), ParseErr> {
        if input.is("null") {
            return Ok((UnitForm::Null, input.rest()));
        }
        if input.is("true") {
            return Ok((UnitForm::True, input.rest()));
        }
        if input.is("false") {
            return Ok((UnitForm::False, input.rest()));
        }
        if input.is("emptymap") {
            return Ok((UnitForm::EmptyMap, input.rest()));
        }
        Err(input.fault())
    }
}
