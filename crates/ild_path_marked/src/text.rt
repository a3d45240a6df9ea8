//! The text of a union's value, made from the text of its member.
ghost use Rattle.std.specs.Prelude.{◌≡◌, ◌++◌, IfOk, option_and_then};
ghost use Rattle.ild_data.specs.Data as T;
ghost use Rattle.ild_schema.specs.declared.def.UnionForm.TheVariants as F;
ghost use Rattle.ild_typed.specs.Composed.{marked_form, member_form, union_form};
ghost use Rattle.ild_typed.specs.Strings.{text_in};

use crate::item::{is_kinded, text_of};
use crate::whole::is_kind;
use ild_data::Txt;
use ild_schema::{KindWord, Member, UnionDef, UnionForm};
use std::alloc::{AllocError, Global};

// A prefix, and a text behind it.
fn behind(alloc: Global, prefix: &str, text: &str) -> Result<Txt, AllocError>
    ensures { IfOk result (λ t. t ≡ prefix.now ++ text.now) }
{
    let mut out = String::from_str(alloc, prefix)?;
    out.push_str(text)?;
    Ok(Txt::from_string(out))
}

// The text by the text of the member's mark.
fn of_mark(
    alloc: Global,
    form: &UnionForm,
    name: &str,
    text: &str,
) -> Result<Option<Txt>, AllocError>
    ensures { IfOk result (λ t. t ≡ option_and_then text_in (marked_form form.now (T.text text.now) name.now)) }
{
    match form {
        UnionForm::StringPrefix => Ok(Some(behind(alloc, name, text)?)),
        UnionForm::Keyed
        | UnionForm::Kinded
        | UnionForm::BytesPrefix
        | UnionForm::Envelope(_, _)
        | UnionForm::Inline(_) => Ok(None),
    }
}

// The text itself, where the member is one by its kind.
fn of_kind(alloc: Global, member: &Member, text: &str) -> Result<Option<Txt>, AllocError>
    ensures { IfOk result (λ t. t ≡ option_and_then text_in (member_form F.Kinded (T.text text.now) member.now)) }
{
    if is_kind(&member.mark, KindWord::Text) {
        Ok(Some(Txt::of(alloc, text)?))
    } else {
        Ok(None)
    }
}

fn of_member(
    alloc: Global,
    form: &UnionForm,
    member: &Member,
    text: &str,
) -> Result<Option<Txt>, AllocError>
    ensures { IfOk result (λ t. t ≡ option_and_then text_in (member_form form.now (T.text text.now) member.now)) }
{
    if is_kinded(form) {
        return of_kind(alloc, member, text);
    }
    match text_of(&member.mark) {
        Some(name) => of_mark(alloc, form, name, text),
        None => Ok(None),
    }
}

/// The text of a union's value, where the member with a number stands as a text: behind the prefix of the member's mark, or that text
/// itself, where the member is told by its kind (IPLD Schemas, "Union Representation Strategies").
///
/// The answer is `None` where the value has no data, or stands as no text. An error is want of memory; a text may be longer than a block.
pub fn marked_text(
    alloc: Global,
    union: &UnionDef,
    member: usize,
    text: &str,
) -> Result<Option<Txt>, AllocError>
    ensures { IfOk result (λ t. t ≡ option_and_then text_in (union_form union.now.form union.now.members (member, T.text text.now))) }
{
    match union.members.get(member) {
        Some(member) => of_member(alloc, &union.form, member, text),
        None => Ok(None),
    }
}
