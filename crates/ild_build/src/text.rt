//! The texts of values in text form.
ghost use Rattle.std.specs.Prelude.{◌≡◌, ◌<◌, ◌++◌, IfOk, OnOk, Some, length, string_bytes, option_and_then};
ghost use Rattle.ild_schema.specs.Fitting.{FittingType};
ghost use Rattle.ild_schema.specs.Table.{IsWithin};
ghost use Rattle.ild_schema.specs.Value.{optionals_list, pairs_list};
ghost use Rattle.ild_schema.specs.ValueSeen.{value_of};
ghost use Rattle.ild_schema.specs.declared.def.TypeDef.TheVariants as D;
ghost use Rattle.ild_typed.specs.Texts.{join, join_pairs};
ghost use Rattle.ild_path_text.specs.Left.{between};
ghost use Rattle.ild_build.specs.TextRep.{TextAnswer, text_rep};
ghost use Rattle.ild_build.specs.inside.TextParts.{entry_texts, field_pairs, field_texts, member_text_rep, pair_added};

use crate::delims::Delims;
use crate::form::form_of;
use crate::left_out::is_left_out;
use crate::parts::field_at;
use ild_data::Tree;
use ild_path_text::{is_joined, is_parted};
use ild_schema::{
    Accepted, EnumForm, KindWord, MapForm, Mark, Slot, StructDef, StructForm, TypeDef, UnionDef,
    UnionForm, Val, ValFields, ValPairs, ValPart, text_of_field, text_of_member,
};
use std::alloc::AllocError;

// Appends a text.
fn add(out: &mut String, text: &str) -> Result<bool, AllocError>
    ensures { IfOk result (λ done. TextAnswer (Some text.now) (string_bytes out.old) (string_bytes out.new) done) }
{
    out.push_str(text)?;
    Ok(true)
}

// Appends a piece of a text.
fn push(out: &mut String, piece: &str) -> Result<(), AllocError>
    ensures { OnOk result (string_bytes out.new ≡ string_bytes out.old ++ piece.now) }
{
    out.push_str(piece)
}

// Appends what stands before a part that has so many parts before it: the delimiter, unless it is the first.
fn add_between(out: &mut String, delim: &str, count: usize) -> Result<(), AllocError>
    ensures { OnOk result (string_bytes out.new ≡ string_bytes out.old ++ between delim.now count) }
{
    if count > 0 {
        out.push_str(delim)?;
    }
    Ok(())
}

/// Appends the text that represents the value, and answers whether there is one. Where there is none, or memory is wanting, a
/// front of some text may have been appended.
#[cycle(text)]
pub(crate) fn add_text(
    acc: &Accepted,
    slot: Slot,
    val: &Val,
    out: &mut String,
) -> Result<bool, AllocError>
    requires { slot.ty.0 < length acc.now }
    ensures { IfOk result (λ done. TextAnswer (text_rep acc.now slot (value_of val.now)) (string_bytes out.old) (string_bytes out.new) done) }
{
    acc.recall();
    match (form_of(acc, slot), val) {
        (TypeDef::Text, Val::Text(text)) => add(out, text.as_str()),
        (TypeDef::Any, Val::Any(Tree::Text(text))) => add(out, text.as_str()),
        (TypeDef::Enum(def), Val::Enum(number)) => match (
            def.form,
            def.members.get(*number as usize),
        ) {
            (EnumForm::Text, Some(member)) => add(out, text_of_member(member)),
            _ => Ok(false),
        },
        (TypeDef::Struct(def), Val::Struct(fields)) => match &def.form {
            StructForm::StringJoin(delim) => add_joined(acc, def, fields, delim.as_str(), out),
            StructForm::StringPairs(inner, entry) => {
                let delims = Delims {
                    inner: inner.as_str(),
                    entry: entry.as_str(),
                };
                add_fields(acc, def, fields, delims, out)
            }
            StructForm::Map | StructForm::Tuple | StructForm::ListPairs => Ok(false),
        },
        (TypeDef::Map { value, form, .. }, Val::Map(pairs)) => match form {
            MapForm::StringPairs(inner, entry) => {
                let delims = Delims {
                    inner: inner.as_str(),
                    entry: entry.as_str(),
                };
                add_entries(acc, *value, pairs, delims, out)
            }
            _ => Ok(false),
        },
        (TypeDef::Union(def), Val::Union(number, part)) => add_member(acc, def, *number, part, out),
        _ => Ok(false),
    }
}

// Appends the texts of all fields with the delimiter between them.
#[cycle(text)]
fn add_joined(
    acc: &Accepted,
    def: &StructDef,
    vals: &ValFields,
    delim: &str,
    out: &mut String,
) -> Result<bool, AllocError>
    requires within { IsWithin (length acc.now) (D.Struct def.now) }
    requires some { 0 < length delim.now }
    ensures { IfOk result (λ done. TextAnswer (option_and_then (join delim.now) (field_texts acc.now def.now.fields (optionals_list vals.now))) (string_bytes out.old) (string_bytes out.new) done) }
{
    if vals.len() != def.fields.len() {
        return Ok(false);
    }
    let _utf8 = out.as_str();
    let start = out.len();
    for (i, field) in def.fields.as_slice().iter().enumerate() {
        let Some(val) = field_at(vals, i) else {
            return Ok(false);
        };
        add_between(out, delim, i)?;
        if !add_text(acc, field.slot, val, out)? {
            return Ok(false);
        }
    }
    Ok(is_joined(&out.as_str()[start..], delim, def.fields.len()))
}

// Appends a key and the text of its value with a delimiter between them, and what stands before the pair.
#[cycle(text)]
fn add_pair(
    acc: &Accepted,
    key: &str,
    slot: Slot,
    val: &Val,
    delims: Delims<'_>,
    count: usize,
    out: &mut String,
) -> Result<bool, AllocError>
    requires { slot.ty.0 < length acc.now }
    ensures { IfOk result (λ done. TextAnswer
        (option_and_then (pair_added (between delims.entry.entry.now count) delims.entry.inner.now key.now) (text_rep acc.now slot (value_of val.now)))
        (string_bytes out.old) (string_bytes out.new) done) }
{
    add_between(out, delims.entry, count)?;
    let _utf8 = out.as_str();
    let start = out.len();
    push(out, key)?;
    push(out, delims.inner)?;
    if !add_text(acc, slot, val, out)? {
        return Ok(false);
    }
    Ok(is_parted(&out.as_str()[start..], delims.inner, key.len()))
}

// Appends the pairs of the fields that are there and not left out.
#[cycle(text)]
fn add_fields(
    acc: &Accepted,
    def: &StructDef,
    vals: &ValFields,
    delims: Delims<'_>,
    out: &mut String,
) -> Result<bool, AllocError>
    requires within { IsWithin (length acc.now) (D.Struct def.now) }
    requires fitting { FittingType acc.now (D.Struct def.now) }
    ensures { IfOk result (λ done. TextAnswer
        (option_and_then (join_pairs delims.entry.inner.now delims.entry.entry.now) (field_pairs acc.now def.now.fields (optionals_list vals.now)))
        (string_bytes out.old) (string_bytes out.new) done) }
{
    if vals.len() != def.fields.len() {
        return Ok(false);
    }
    let _utf8 = out.as_str();
    let start = out.len();
    let mut count = 0;
    for (i, field) in def.fields.as_slice().iter().enumerate() {
        match field_at(vals, i) {
            Some(val) => {
                if is_left_out(field, val) {
                    continue;
                }
                if !add_pair(
                    acc,
                    text_of_field(field),
                    field.slot,
                    val,
                    delims,
                    count,
                    out,
                )? {
                    return Ok(false);
                }
                count += 1;
            }
            None => {
                if !field.optional {
                    return Ok(false);
                }
            }
        }
    }
    Ok(is_joined(&out.as_str()[start..], delims.entry, count))
}

// Appends the pairs of the entries in their order.
#[cycle(text)]
fn add_entries(
    acc: &Accepted,
    value: Slot,
    pairs: &ValPairs,
    delims: Delims<'_>,
    out: &mut String,
) -> Result<bool, AllocError>
    requires { value.ty.0 < length acc.now }
    ensures { IfOk result (λ done. TextAnswer
        (option_and_then (join_pairs delims.entry.inner.now delims.entry.entry.now) (entry_texts acc.now value (pairs_list pairs.now)))
        (string_bytes out.old) (string_bytes out.new) done) }
{
    let _utf8 = out.as_str();
    let start = out.len();
    for i in 0..pairs.len() {
        let Some(pair) = pairs.get(i) else {
            return Ok(false);
        };
        if !add_pair(acc, pair.0.as_str(), value, &pair.1, delims, i, out)? {
            return Ok(false);
        }
    }
    Ok(is_joined(&out.as_str()[start..], delims.entry, pairs.len()))
}

// Appends the text of a union's member, behind its prefix where it has one.
#[cycle(text)]
fn add_member(
    acc: &Accepted,
    def: &UnionDef,
    number: u32,
    part: &ValPart,
    out: &mut String,
) -> Result<bool, AllocError>
    requires { IsWithin (length acc.now) (D.Union def.now) }
    ensures { IfOk result (λ done. TextAnswer (member_text_rep acc.now def.now number part.now) (string_bytes out.old) (string_bytes out.new) done) }
{
    let Some(member) = def.members.get(number as usize) else {
        return Ok(false);
    };
    let slot = Slot {
        ty: member.ty,
        nullable: false,
    };
    match (&def.form, &member.mark) {
        (UnionForm::StringPrefix, Mark::Text(prefix)) => {
            push(out, prefix.as_str())?;
            add_text(acc, slot, part.get(), out)
        }
        (UnionForm::Kinded, Mark::Kind(KindWord::Text)) => add_text(acc, slot, part.get(), out),
        _ => Ok(false),
    }
}
