//! Unions, written: the member with what tells it.
ghost use Rattle.std.specs.Prelude.{◌≡◌, ◌<◌, OnOk, OnErr, length, false, true};
ghost use Rattle.ild_emit.specs.Grown.{IsGrown};
ghost use Rattle.ild_schema.specs.Clear.{KeysApart};
ghost use Rattle.ild_schema.specs.Made.{MadeMember};
ghost use Rattle.ild_schema.specs.Rules.{is_map_struct};
ghost use Rattle.ild_schema.specs.Slots.{form_of, plainly};
ghost use Rattle.ild_schema.specs.Value as V;
ghost use Rattle.ild_schema.specs.ValueSeen.{value_of};
ghost use Rattle.ild_schema.specs.declared.def.UnionForm.TheVariants as UF;
ghost use Rattle.ild_typed.specs.Hamt.{whole};
ghost use Rattle.ild_build_leaf.specs.Made.{made};
ghost use Rattle.ild_build_pass.specs.Fitting.{FitsIn, IsApartFrom};
ghost use Rattle.ild_build_pass.specs.inside.Fronts.{IsWrapped};
ghost use Rattle.ild_build_pass.specs.Weights.{weigh};
ghost use Rattle.ild_build_pass.specs.Writes.{Writes};
ghost use Rattle.ild_build_pass.specs.inside.Written.{WritesMarked, WritesMember};

use crate::fronts::{add_behind_prefix, begin_inline, begin_member, end_member};
use crate::pass::add;
use crate::structs::add_places;
use ild_build::form_of;
use ild_build_entries::Nodes;
use ild_build_leaf::{Tag, add_as_text, add_tag};
use ild_data::KeyHash;
use ild_emit::Emit;
use ild_schema::{Accepted, Mark, Member, Slot, TypeDef, UnionForm, Val, ValPart};
use std::alloc::{AllocError, Global};

// Appends a union.
#[cycle(pass)]
#[inline(never)]
pub(crate) fn add_union<H: KeyHash>(
    alloc: Global,
    acc: &Accepted,
    keys: &H,
    slot: Slot,
    val: &Val,
    number: u32,
    part: &ValPart,
    nodes: &mut Nodes,
    out: &mut Emit,
) -> Result<(), AllocError>
    requires within { slot.ty.0 < length acc.now }
    requires same { value_of val.now ≡ V.union number part.now }
    requires fits { FitsIn acc.now slot (V.union number part.now) }
    ensures ok { OnOk result (Writes H.hash_of acc.now (made (whole H.hash_of) acc.now slot (V.union number part.now))
        (λ μ. weigh μ acc.now slot (V.union number part.now)) out.old out.new nodes.old nodes.new) }
    ensures err { OnErr result (IsGrown out.old out.new) }
{
    acc.recall();
    match form_of(acc, slot) {
        TypeDef::Union(def) => match &def.form {
            UnionForm::StringPrefix => add_as_text(alloc, acc, slot, val, out),
            form => match def.members.get(number as usize) {
                Some(member) => add_member(alloc, acc, keys, form, member, part, nodes, out),
                None => Ok(()),
            },
        },
        _ => Ok(()),
    }
}

// Appends a union's member by the union's form, which is no prefix of a text.
#[cycle(pass)]
fn add_member<H: KeyHash>(
    alloc: Global,
    acc: &Accepted,
    keys: &H,
    form: &UnionForm,
    member: &Member,
    part: &ValPart,
    nodes: &mut Nodes,
    out: &mut Emit,
) -> Result<(), AllocError>
    requires within { member.now.ty.0 < length acc.now }
    requires form { form.now ≡ UF.StringPrefix → ⊥ }
    requires made { MadeMember acc.now form.now member.now }
    requires apart { KeysApart form.now }
    requires fits { FitsIn acc.now (plainly member.now.ty) part.now }
    ensures ok { OnOk result (WritesMember H.hash_of acc.now form.now member.now part.now out.old out.new nodes.old nodes.new) }
    ensures err { OnErr result (IsGrown out.old out.new) }
{
    let slot = Slot {
        ty: member.ty,
        nullable: false,
    };
    let val = part.get();
    match (form, &member.mark) {
        (UnionForm::Kinded, _) => add(alloc, acc, keys, slot, val, nodes, out),
        (UnionForm::Keyed, Mark::Text(name)) => {
            add_wrapped(alloc, acc, keys, form, name.as_str(), slot, val, nodes, out)
        }
        (UnionForm::Envelope(_, _), Mark::Text(name)) => {
            add_wrapped(alloc, acc, keys, form, name.as_str(), slot, val, nodes, out)
        }
        (UnionForm::Inline(key), Mark::Text(name)) => {
            let tag = Tag {
                key: key.as_str(),
                name: name.as_str(),
            };
            add_inline(alloc, acc, keys, tag, slot, val, nodes, out)
        }
        (UnionForm::BytesPrefix, Mark::Text(digits)) => {
            add_prefixed(alloc, acc, keys, digits.as_str(), slot, val, nodes, out)
        }
        _ => Ok(()),
    }
}

// Appends a member with what stands before it and behind it.
#[cycle(pass)]
fn add_wrapped<H: KeyHash>(
    alloc: Global,
    acc: &Accepted,
    keys: &H,
    form: &UnionForm,
    name: &str,
    slot: Slot,
    val: &Val,
    nodes: &mut Nodes,
    out: &mut Emit,
) -> Result<(), AllocError>
    requires within { slot.ty.0 < length acc.now }
    requires form { IsWrapped form.now }
    requires fits { FitsIn acc.now slot (value_of val.now) }
    ensures ok { OnOk result (WritesMarked H.hash_of acc.now slot form.now name.now (value_of val.now) out.old out.new nodes.old nodes.new) }
    ensures err { OnErr result (IsGrown out.old out.new) }
{
    begin_member(form, name, out)?;
    add(alloc, acc, keys, slot, val, nodes, out)?;
    end_member(form, name, out)
}

// Appends a member, which is a struct as a map, with an entry more for its text.
#[cycle(pass)]
fn add_inline<H: KeyHash>(
    alloc: Global,
    acc: &Accepted,
    keys: &H,
    tag: Tag<'_>,
    slot: Slot,
    val: &Val,
    nodes: &mut Nodes,
    out: &mut Emit,
) -> Result<(), AllocError>
    requires within { slot.ty.0 < length acc.now }
    requires plain { slot.nullable ≡ false }
    requires map { is_map_struct (form_of acc.now slot) ≡ true }
    requires fits { FitsIn acc.now slot (value_of val.now) }
    requires apart { IsApartFrom acc.now tag.key.now slot }
    ensures ok { OnOk result (WritesMarked H.hash_of acc.now slot (UF.Inline tag.entry.key.now) tag.entry.name.now (value_of val.now) out.old out.new nodes.old nodes.new) }
    ensures err { OnErr result (IsGrown out.old out.new) }
{
    acc.recall();
    match (form_of(acc, slot), val) {
        (TypeDef::Struct(def), Val::Struct(vals)) => {
            let sides = begin_inline(acc, slot, def, vals, tag.key, out)?;
            add_places(alloc, acc, keys, def, vals, sides.before, nodes, out)?;
            add_tag(tag, out)?;
            add_places(alloc, acc, keys, def, vals, sides.behind, nodes, out)
        }
        _ => Ok(()),
    }
}

// Appends the bytes of a member behind its prefix.
#[cycle(pass)]
fn add_prefixed<H: KeyHash>(
    alloc: Global,
    acc: &Accepted,
    keys: &H,
    digits: &str,
    slot: Slot,
    val: &Val,
    nodes: &mut Nodes,
    out: &mut Emit,
) -> Result<(), AllocError>
    requires within { slot.ty.0 < length acc.now }
    requires fits { FitsIn acc.now slot (value_of val.now) }
    ensures ok { OnOk result (WritesMarked H.hash_of acc.now slot UF.BytesPrefix digits.now (value_of val.now) out.old out.new nodes.old nodes.new) }
    ensures err { OnErr result (out.new ≡ out.old) }
{
    let mut member = Emit::new(alloc);
    add(alloc, acc, keys, slot, val, nodes, &mut member)?;
    let spelled = member.finish();
    add_behind_prefix(alloc, digits, spelled.as_slice(), out)
}
