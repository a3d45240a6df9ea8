//! Pieces that hold no other values, and texts.
ghost use Rattle.std.specs.Prelude.{◌≡◌, ◌<◌, ◌++◌, OnOk, OnErr, length, option_map};
ghost use Rattle.ild_data.specs.Spell.{head, spell, spell_text};
ghost use Rattle.ild_emit.specs.Grown.{IsGrown};
ghost use Rattle.ild_data.specs.Decimal.{decimal_of};
ghost use Rattle.ild_schema.specs.Marks.{member_integer};
ghost use Rattle.ild_schema.specs.Value.{unit, enum};
ghost use Rattle.ild_schema.specs.ValueSeen.{value_of};
ghost use Rattle.ild_typed.specs.Composed.{enum_form, unit_data};
ghost use Rattle.ild_typed.specs.Hamt.{alone};
ghost use Rattle.ild_build.specs.TextRep.{text_rep};
ghost use Rattle.ild_build_leaf.specs.Made.{before_key, entries_major, IsLeaf, made};
ghost use Rattle.ild_build_leaf.specs.Wrote.{Wrote};

use ild_build::{form_of, represented_text};
use ild_data::{Int, decimal_of};
use ild_emit::Emit;
use ild_schema::{Accepted, EnumForm, EnumMember, Slot, TypeDef, UnitForm, Val, text_of_member};
use std::alloc::{AllocError, Global};

// Appends a unit of a form.
fn add_unit_form(form: UnitForm, out: &mut Emit) -> Result<(), AllocError>
    ensures ok { OnOk result (out.new ≡ out.old ++ spell (unit_data form)) }
    ensures err { OnErr result (out.new ≡ out.old) }
{
    match form {
        UnitForm::Null => out.simple(None),
        UnitForm::True => out.simple(Some(true)),
        UnitForm::False => out.simple(Some(false)),
        UnitForm::EmptyMap => out.head(5, 0),
    }
}

// Appends a unit.
#[inline(never)]
fn add_unit(acc: &Accepted, slot: Slot, out: &mut Emit) -> Result<(), AllocError>
    requires { slot.ty.0 < length acc.now }
    ensures ok { OnOk result (Wrote (made alone acc.now slot unit) out.old out.new) }
    ensures err { OnErr result (out.new ≡ out.old) }
{
    match form_of(acc, slot) {
        TypeDef::Unit(form) => add_unit_form(*form, out),
        _ => Ok(()),
    }
}

// The integer of a block that a text is in decimal.
fn integer_in(text: &[u8]) -> Option<Int>
    ensures { result ≡ decimal_of text.now }
{
    match decimal_of(text) {
        Some(n) => Int::new(n),
        None => None,
    }
}

// The integer of an enum's member in a block.
fn integer_of(member: &EnumMember) -> Option<Int>
    ensures { result ≡ member_integer member.now }
{
    match &member.text {
        Some(text) => integer_in(text.as_str().as_bytes()),
        None => None,
    }
}

// Appends the member of an enum of a form.
fn add_enum_form(form: EnumForm, member: &EnumMember, out: &mut Emit) -> Result<(), AllocError>
    ensures ok { OnOk result (Wrote (option_map spell (enum_form form member.now)) out.old out.new) }
    ensures err { OnErr result (out.new ≡ out.old) }
{
    match form {
        EnumForm::Text => out.text(text_of_member(member)),
        EnumForm::Int => match integer_of(member) {
            Some(n) => out.int(n),
            None => Ok(()),
        },
    }
}

// Appends the member of an enum with a number.
#[inline(never)]
fn add_enum(acc: &Accepted, slot: Slot, number: u32, out: &mut Emit) -> Result<(), AllocError>
    requires { slot.ty.0 < length acc.now }
    ensures ok { OnOk result (Wrote (made alone acc.now slot (enum number)) out.old out.new) }
    ensures err { OnErr result (out.new ≡ out.old) }
{
    match form_of(acc, slot) {
        TypeDef::Enum(def) => match def.members.get(number as usize) {
            Some(member) => add_enum_form(def.form, member, out),
            None => Ok(()),
        },
        _ => Ok(()),
    }
}

/// Appends a value that has no parts.
#[inline(always)]
pub fn add_leaf(acc: &Accepted, slot: Slot, val: &Val, out: &mut Emit) -> Result<(), AllocError>
    requires within { slot.ty.0 < length acc.now }
    requires leaf { IsLeaf (value_of val.now) }
    ensures ok { OnOk result (Wrote (made alone acc.now slot (value_of val.now)) out.old out.new) }
    ensures err { OnErr result (out.new ≡ out.old) }
{
    match val {
        Val::Null => out.simple(None),
        Val::Bool(b) => out.simple(Some(*b)),
        Val::Int(n) => out.int(*n),
        Val::Text(text) => out.text(text.as_str()),
        Val::Bytes(bytes) => out.bytes(bytes.as_slice()),
        Val::Link(cid) => out.link(&cid.view()),
        Val::Any(tree) => out.tree(tree),
        Val::Unit => add_unit(acc, slot, out),
        Val::Enum(number) => add_enum(acc, slot, *number, out),
        _ => Ok(()),
    }
}

/// Appends the text that represents a value, where there is one.
pub fn add_as_text(
    alloc: Global,
    acc: &Accepted,
    slot: Slot,
    val: &Val,
    out: &mut Emit,
) -> Result<(), AllocError>
    requires { slot.ty.0 < length acc.now }
    ensures ok { OnOk result (Wrote (option_map spell_text (text_rep acc.now slot (value_of val.now))) out.old out.new) }
    ensures err { OnErr result (out.new ≡ out.old) }
{
    match represented_text(alloc, acc, slot, val)? {
        Some(text) => out.text(text.as_str()),
        None => Ok(()),
    }
}

// Appends what stands before a key: the head of a pair, or nothing in a map.
#[inline(always)]
fn add_before_key(paired: bool, out: &mut Emit) -> Result<(), AllocError>
    ensures ok { OnOk result (out.new ≡ out.old ++ before_key paired) }
    ensures err { OnErr result (out.new ≡ out.old) }
{
    if paired { out.head(4, 2) } else { Ok(()) }
}

/// Appends a key, behind the head of a pair where it stands in one.
#[inline(always)]
pub fn add_key(paired: bool, key: &str, out: &mut Emit) -> Result<(), AllocError>
    ensures ok { OnOk result (out.new ≡ out.old ++ (before_key paired ++ spell_text key.now)) }
    ensures err { OnErr result (IsGrown out.old out.new) }
{
    add_before_key(paired, out)?;
    out.text(key)
}

/// The key and the text of a discriminant.
#[derive(Clone, Copy)]
pub struct Tag<'a> {
    pub key: &'a str,
    pub name: &'a str,
}

/// Appends a discriminant: its key, and its text.
pub fn add_tag(tag: Tag<'_>, out: &mut Emit) -> Result<(), AllocError>
    ensures ok { OnOk result (out.new ≡ out.old ++ (spell_text tag.entry.key.now ++ spell_text tag.entry.name.now)) }
    ensures err { OnErr result (IsGrown out.old out.new) }
{
    out.text(tag.key)?;
    out.text(tag.name)
}

/// Appends the count of entries, of a map or of a list of pairs.
pub fn add_count(paired: bool, count: usize, out: &mut Emit) -> Result<(), AllocError>
    ensures ok { OnOk result (out.new ≡ out.old ++ head (entries_major paired) count) }
    ensures err { OnErr result (out.new ≡ out.old) }
{
    if paired {
        out.head(4, count as u64)
    } else {
        out.head(5, count as u64)
    }
}
