//! The parts of a type that are as the text says them: forms, marks, settings of fields and members of enums.
ghost use Rattle.std.specs.Prelude.{◌≡◌, ℕ, List, Option, None, Some, IfOk};
ghost use Rattle.ild_parse_grammar.specs.declared.ast.Mark.TheVariants as AK;
ghost use Rattle.ild_resolve.specs.Events.{map_form_events, mark_events};
ghost use Rattle.ild_resolve.specs.Forms.{map_form, struct_form, union_form, enum_form, unit_form, scalar, kind_mark, mark_of, enum_member, enum_members, renamed, implied};
ghost use Rattle.ild_resolve.specs.inside.Judged.{Judged};

use crate::ResolveErr;
use crate::layout::layout;
use ild_data::{List as AstList, Txt};
use ild_parse_grammar::{
    EnumForm as AstEnumForm, EnumMember as AstEnumMember, Implicit, KindWord as AstKindWord,
    MapForm as AstMapForm, Mark as AstMark, Opt, StructForm as AstStructForm,
    UnionForm as AstUnionForm, UnitForm as AstUnitForm,
};
use ild_schema::{
    EnumForm, EnumMember, EnumMembers, KindWord, MapForm, Mark, Scalar, StructForm, UnionForm,
    UnitForm,
};
use std::alloc::{AllocError, Global};

/// How a map stands in a block.
pub(crate) fn map_form_of(form: Option<AstMapForm>) -> Result<MapForm, ResolveErr>
    ensures words { (numbers : List ℕ → Option ℕ) → Judged numbers (map_form_events form) result }
    ensures same { IfOk result (λ f. f ≡ map_form form) }
{
    match form {
        None | Some(AstMapForm::Map) => Ok(MapForm::Map),
        Some(AstMapForm::ListPairs) => Ok(MapForm::ListPairs),
        Some(AstMapForm::StringPairs(p)) => { Ok(MapForm::StringPairs(p.inner.text, p.entry.text)) }
        Some(AstMapForm::Advanced(name)) => layout(&name),
    }
}

/// How a struct stands in a block.
pub(crate) fn struct_form_of(form: Option<AstStructForm>) -> StructForm
    ensures { result ≡ struct_form form }
{
    match form {
        None | Some(AstStructForm::Map) => StructForm::Map,
        Some(AstStructForm::Tuple) => StructForm::Tuple,
        Some(AstStructForm::ListPairs) => StructForm::ListPairs,
        Some(AstStructForm::StringPairs(p)) => {
            StructForm::StringPairs(p.inner.text, p.entry.text)
        }
        Some(AstStructForm::StringJoin(join)) => StructForm::StringJoin(join.text),
    }
}

/// How a union stands in a block.
pub(crate) fn union_form_of(form: AstUnionForm) -> UnionForm
    ensures { result ≡ union_form form }
{
    match form {
        AstUnionForm::Keyed => UnionForm::Keyed,
        AstUnionForm::Kinded => UnionForm::Kinded,
        AstUnionForm::StringPrefix => UnionForm::StringPrefix,
        AstUnionForm::BytesPrefix => UnionForm::BytesPrefix,
        AstUnionForm::Envelope(e) => UnionForm::Envelope(e.discriminant.text, e.content.text),
        AstUnionForm::Inline(key) => UnionForm::Inline(key.text),
    }
}

/// How an enum stands in a block.
pub(crate) fn enum_form_of(form: Option<AstEnumForm>) -> EnumForm
    ensures { result ≡ enum_form form }
{
    match form {
        None | Some(AstEnumForm::String) => EnumForm::Text,
        Some(AstEnumForm::Int) => EnumForm::Int,
    }
}

/// How a unit stands in a block.
pub(crate) fn unit_form_of(form: AstUnitForm) -> UnitForm
    ensures { result ≡ unit_form form }
{
    match form {
        AstUnitForm::Null => UnitForm::Null,
        AstUnitForm::True => UnitForm::True,
        AstUnitForm::False => UnitForm::False,
        AstUnitForm::EmptyMap => UnitForm::EmptyMap,
    }
}

/// A value that stands for a field that is left out.
fn scalar_of(value: Implicit) -> Scalar
    ensures { result ≡ scalar value }
{
    match value {
        Implicit::Text(t) => Scalar::Text(t.text),
        Implicit::Number(n) => Scalar::Int(n.value),
        Implicit::True => Scalar::Bool(true),
        Implicit::False => Scalar::Bool(false),
    }
}

/// The kind behind a member: there are no floats.
fn kind_of(kind: AstKindWord) -> Result<Mark, ResolveErr>
    ensures words { (numbers : List ℕ → Option ℕ) → Judged numbers (mark_events (Some (AK.Kind kind))) result }
    ensures same { IfOk result (λ m. m ≡ kind_mark kind) }
{
    let word = match kind {
        AstKindWord::Null => KindWord::Null,
        AstKindWord::Bool => KindWord::Bool,
        AstKindWord::Int => KindWord::Int,
        AstKindWord::Float(at) => return Err(ResolveErr::Float { at }),
        AstKindWord::String => KindWord::Text,
        AstKindWord::Bytes => KindWord::Bytes,
        AstKindWord::List => KindWord::List,
        AstKindWord::Map => KindWord::Map,
        AstKindWord::Link => KindWord::Link,
    };
    Ok(Mark::Kind(word))
}

/// What stands behind a member.
pub(crate) fn mark_in(mark: Option<AstMark>) -> Result<Mark, ResolveErr>
    ensures words { (numbers : List ℕ → Option ℕ) → Judged numbers (mark_events mark) result }
    ensures same { IfOk result (λ m. m ≡ mark_of mark) }
{
    match mark {
        None => Ok(Mark::Bare),
        Some(AstMark::Text(t)) => Ok(Mark::Text(t.text)),
        Some(AstMark::Kind(kind)) => kind_of(kind),
    }
}

/// A member of an enum.
fn enum_member_of(member: AstEnumMember) -> EnumMember
    ensures { result ≡ enum_member member }
{
    EnumMember {
        name: member.name.name,
        at: member.name.at,
        text: match member.text {
            Some(t) => Some(t.text),
            None => None,
        },
    }
}

/// The members of an enum.
pub(crate) fn enum_members_of(
    alloc: Global,
    members: AstList<AstEnumMember>,
) -> Result<EnumMembers, AllocError>
    ensures { IfOk result (λ ms. ms ≡ enum_members members) }
{
    let mut made = Vec::new(alloc);
    for member in members.into_vec() {
        made.push(enum_member_of(member))?;
    }
    Ok(EnumMembers::from_vec(made))
}

/// The rename and the implicit value among the settings of a field.
pub(crate) fn settings(opts: AstList<Opt>) -> (Option<Txt>, Option<Scalar>)
    ensures rename { result.0 ≡ renamed None opts }
    ensures implicit { result.1 ≡ implied None opts }
{
    let mut rename = None;
    let mut implicit = None;
    for opt in opts.into_vec() {
        match opt {
            Opt::Rename(t) => rename = Some(t.text),
            Opt::Implicit(value) => implicit = Some(scalar_of(value)),
        }
    }
    (rename, implicit)
}
