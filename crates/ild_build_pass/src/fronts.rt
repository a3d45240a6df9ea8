//! What stands around the parts of a value: heads, keys and discriminants, and the prefix of bytes.
ghost use Rattle.std.specs.Prelude.{◌≡◌, ◌+◌, ◌++◌, ◌<◌, [], IfOk, OnErr, OnOk, Some, cond, length};
ghost use Rattle.ild_data.specs.Spell.{head, spell_text};
ghost use Rattle.ild_emit.specs.Grown.{IsGrown};
ghost use Rattle.ild_build_leaf.specs.Kept.{count_written};
ghost use Rattle.ild_schema.specs.Indexed.{InKeyOrder};
ghost use Rattle.ild_schema.specs.Slots.{form_of};
ghost use Rattle.ild_schema.specs.Value.{optionals_list};
ghost use Rattle.ild_schema.specs.declared.def.TypeDef.TheVariants as D;
ghost use Rattle.ild_build_pass.specs.inside.Fronts.{BeginsEntry, JoinsPrefix, SplitsAt, envelope_front, member_back, member_front, tag_spelled};
ghost use Rattle.ild_build_pass.specs.inside.Places.{texts_of};

use ild_build_entries::MarkedEntries;
use ild_build_leaf::{Tag, add_hex, add_tag, behind_head, count_before, written};
use ild_bulk::begin_entry;
use ild_data::key_less;
use ild_emit::Emit;
use ild_schema::{Accepted, Slot, StructDef, UnionForm, ValFields};
use std::alloc::{AllocError, Global};

// ---- unions

// Appends the head of a keyed member's map, and its text as the key.
fn begin_keyed(name: &str, out: &mut Emit) -> Result<(), AllocError>
    ensures ok { OnOk result (out.new ≡ out.old ++ (head 5 1 ++ spell_text name.now)) }
    ensures err { OnErr result (IsGrown out.old out.new) }
{
    out.head(5, 1)?;
    out.text(name)
}

// Appends a discriminant, if it stands here.
fn add_tag_if(here: bool, tag: Tag<'_>, out: &mut Emit) -> Result<(), AllocError>
    ensures ok { OnOk result (out.new ≡ out.old ++ cond here (tag_spelled tag.entry.key.now tag.entry.name.now) []) }
    ensures err { OnErr result (IsGrown out.old out.new) }
{
    if here { add_tag(tag, out) } else { Ok(()) }
}

// Appends the head of an envelope, the discriminant if its key comes first, and the key of the content.
fn begin_envelope(tag: Tag<'_>, content: &str, out: &mut Emit) -> Result<(), AllocError>
    ensures ok { OnOk result (out.new ≡ out.old ++ envelope_front tag.entry.key.now content.now tag.entry.name.now) }
    ensures err { OnErr result (IsGrown out.old out.new) }
{
    out.head(5, 2)?;
    add_tag_if(key_less(tag.key, content), tag, out)?;
    out.text(content)
}

// Appends what stands before a member with this text.
pub(crate) fn begin_member(form: &UnionForm, name: &str, out: &mut Emit) -> Result<(), AllocError>
    ensures ok { OnOk result (out.new ≡ out.old ++ member_front form.now name.now) }
    ensures err { OnErr result (IsGrown out.old out.new) }
{
    match form {
        UnionForm::Keyed => begin_keyed(name, out),
        UnionForm::Envelope(key, content) => {
            let tag = Tag {
                key: key.as_str(),
                name,
            };
            begin_envelope(tag, content.as_str(), out)
        }
        UnionForm::Kinded => Ok(()),
        UnionForm::StringPrefix => Ok(()),
        UnionForm::BytesPrefix => Ok(()),
        UnionForm::Inline(_) => Ok(()),
    }
}

// Appends what stands behind a member with this text.
pub(crate) fn end_member(form: &UnionForm, name: &str, out: &mut Emit) -> Result<(), AllocError>
    ensures ok { OnOk result (out.new ≡ out.old ++ member_back form.now name.now) }
    ensures err { OnErr result (IsGrown out.old out.new) }
{
    match form {
        UnionForm::Envelope(key, content) => {
            let tag = Tag {
                key: key.as_str(),
                name,
            };
            add_tag_if(!key_less(tag.key, content.as_str()), tag, out)
        }
        UnionForm::Keyed => Ok(()),
        UnionForm::Kinded => Ok(()),
        UnionForm::StringPrefix => Ok(()),
        UnionForm::BytesPrefix => Ok(()),
        UnionForm::Inline(_) => Ok(()),
    }
}

// Appends bytes with a prefix: its digits are given, and the spelling of what stands behind it.
pub(crate) fn add_behind_prefix(
    alloc: Global,
    digits: &str,
    spelled: &[u8],
    out: &mut Emit,
) -> Result<(), AllocError>
    ensures ok { OnOk result (JoinsPrefix digits.now spelled.now out.old out.new) }
    ensures err { OnErr result (out.new ≡ out.old) }
{
    let mut bytes = Vec::new(alloc);
    add_hex(&mut bytes, digits.as_bytes())?;
    bytes.extend_from_slice(behind_head(spelled))?;
    out.bytes(&bytes)
}

// ---- structs as maps

// Appends the head of a struct. Its fields, in the key order, come back.
pub(crate) fn begin_fields<'a>(
    acc: &'a Accepted,
    slot: Slot,
    def: &StructDef,
    vals: &ValFields,
    out: &mut Emit,
) -> Result<&'a [usize], AllocError>
    requires low { slot.ty.0 < length acc.now }
    requires known { form_of acc.now slot ≡ Some (D.Struct def.now) }
    ensures ok { OnOk result (out.new ≡ out.old ++ head 5 (count_written def.now.fields (optionals_list vals.now))) }
    ensures err { OnErr result (out.new ≡ out.old) }
    ensures order { IfOk result (λ places. InKeyOrder (texts_of def.now.fields) places.now) }
{
    out.head(5, written(&def.fields, vals) as u64)?;
    Ok(acc.in_key_order(acc.base(slot.ty)))
}

/// The fields before a discriminant, and those behind it.
#[derive(Clone, Copy)]
pub(crate) struct Sides<'a> {
    pub(crate) before: &'a [usize],
    pub(crate) behind: &'a [usize],
}

// Appends the head of a struct with one entry more, for a discriminant.
pub(crate) fn begin_inline<'a>(
    acc: &'a Accepted,
    slot: Slot,
    def: &StructDef,
    vals: &ValFields,
    key: &str,
    out: &mut Emit,
) -> Result<Sides<'a>, AllocError>
    requires low { slot.ty.0 < length acc.now }
    requires known { form_of acc.now slot ≡ Some (D.Struct def.now) }
    ensures ok { OnOk result (out.new ≡ out.old ++ head 5 (count_written def.now.fields (optionals_list vals.now) + 1)) }
    ensures err { OnErr result (out.new ≡ out.old) }
    ensures sides { IfOk result (λ sides. SplitsAt def.now.fields key.now sides.before.now sides.behind.now) }
{
    let Some(count) = written(&def.fields, vals).checked_add(1) else {
        return Err(AllocError);
    };
    out.head(5, count as u64)?;
    let places = acc.in_key_order(acc.base(slot.ty));
    let (before, behind) = places.split_at(count_before(&def.fields, key, places));
    Ok(Sides { before, behind })
}

// ---- HAMTs

/// How many bytes stand before an entry, and how many before its value.
#[derive(Clone, Copy)]
pub(crate) struct Begun {
    pub(crate) from: usize,
    pub(crate) value_from: usize,
}

// Appends what stands before the value of an entry.
pub(crate) fn open_entry(key: &str, entries: &mut MarkedEntries<'_>) -> Result<Begun, AllocError>
    ensures { IfOk result (λ begun. BeginsEntry key.now begun.from begun.value_from entries.old entries.new) }
{
    let from = entries.out.len();
    begin_entry(&mut entries.out, key)?;
    let value_from = entries.out.len();
    Ok(Begun { from, value_from })
}
