//! The limits of a schema: how many types there may be, and how many parts of each.
ghost use Rattle.std.specs.Prelude.{◌≡◌, ◌<◌, ◌≤◌, ℕ, [], ◌∷◌, OnOk, IfErr};
ghost use Rattle.ild_resolve.specs.Events.{begins, reference_events, field_events, target_events, member_events, enum_member_events, each_events, body_events};
ghost use Rattle.ild_resolve.specs.Faults.{most_types, most_parts};
ghost use Rattle.ild_resolve.specs.inside.Counts.{Counts};
ghost use Rattle.ild_resolve.specs.declared.error.ResolveErr.TheVariants.{Many};

use crate::ResolveErr;
use ild_parse_grammar::{Body, EnumMember, Field, Inline, Member, Ref, Target};

/// The most types that a schema may have beside the prelude's.
const MOST_TYPES: u32 = 65535;

/// The most fields or members that a type may have.
const MOST_PARTS: usize = 1024;

/// Counts a type that begins at a place, behind so many others.
pub(crate) fn begin(types: &mut u32, at: usize) -> Result<(), ResolveErr>
    ensures room { OnOk result (types.old < most_types) }
    ensures counted { Counts types.old (begins at ∷ []) result types.new }
{
    if *types >= MOST_TYPES {
        return Err(ResolveErr::Many { at });
    }
    *types += 1;
    Ok(())
}

/// Takes a part that begins at a place, behind so many others of its type.
fn begin_part(before: usize, at: usize) -> Result<(), ResolveErr>
    ensures room { OnOk result (before < most_parts) }
    ensures fault { IfErr result (λ e. (most_parts ≤ before) × (e ≡ Many at)) }
{
    if before >= MOST_PARTS {
        return Err(ResolveErr::Many { at });
    }
    Ok(())
}

/// Counts the inline types of a reference.
fn reference(types: &mut u32, r: &Ref) -> Result<(), ResolveErr>
    ensures { Counts types.old (reference_events r.now) result types.new }
{
    match &r.inline {
        Inline::Type(_) => Ok(()),
        Inline::Link(_) => begin(types, r.type_at),
        Inline::List(inner) => {
            begin(types, r.type_at)?;
            reference(types, inner)
        }
        Inline::Map(_, inner) => {
            begin(types, r.type_at)?;
            reference(types, inner)
        }
    }
}

/// Takes a field, and counts its inline types.
fn field(types: &mut u32, before: usize, f: &Field) -> Result<(), ResolveErr>
    ensures { Counts types.old (field_events before f.now) result types.new }
{
    begin_part(before, f.name.at)?;
    reference(types, &f.value)
}

/// Takes the fields of a struct, and counts their inline types.
fn fields(types: &mut u32, fields: &[Field]) -> Result<(), ResolveErr>
    ensures { Counts types.old (each_events field_events 0 fields.now) result types.new }
{
    for (i, f) in fields.iter().enumerate() {
        field(types, i, f)?;
    }
    Ok(())
}

/// Counts a member `&T`, which is an inline type.
fn target(types: &mut u32, at: usize, target: &Target) -> Result<(), ResolveErr>
    ensures { Counts types.old (target_events at target.now) result types.new }
{
    match target {
        Target::Type(_) => Ok(()),
        Target::Link(_) => begin(types, at),
    }
}

/// Takes a member, and counts its inline type.
fn member(types: &mut u32, before: usize, m: &Member) -> Result<(), ResolveErr>
    ensures { Counts types.old (member_events before m.now) result types.new }
{
    begin_part(before, m.at)?;
    target(types, m.at, &m.target)
}

/// Takes the members of a union, and counts their inline types.
fn members(types: &mut u32, members: &[Member]) -> Result<(), ResolveErr>
    ensures { Counts types.old (each_events member_events 0 members.now) result types.new }
{
    for (i, m) in members.iter().enumerate() {
        member(types, i, m)?;
    }
    Ok(())
}

/// Takes the members of an enum.
fn enum_members(members: &[EnumMember]) -> Result<(), ResolveErr>
    ensures { (types : ℕ) → Counts types (each_events enum_member_events 0 members.now) result types }
{
    for (i, m) in members.iter().enumerate() {
        begin_part(i, m.name.at)?;
    }
    Ok(())
}

/// Counts what a declaration's body holds.
pub(crate) fn body(types: &mut u32, body: &Body) -> Result<(), ResolveErr>
    ensures { Counts types.old (body_events body.now) result types.new }
{
    match body {
        Body::List(r) => reference(types, r),
        Body::Map(m) => reference(types, &m.value),
        Body::Struct(s) => fields(types, s.fields.as_slice()),
        Body::Union(u) => members(types, u.members.as_slice()),
        Body::Enum(e) => enum_members(e.members.as_slice()),
        Body::Copy(_) | Body::Link(_) | Body::Float(_) | Body::Unit(_) => Ok(()),
        Body::Bool | Body::String | Body::Bytes | Body::Int | Body::Any => Ok(()),
    }
}
