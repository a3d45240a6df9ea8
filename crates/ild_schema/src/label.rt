//! What the parts of a type are called by: their names, and the texts under which they stand in a block.
ghost use Rattle.std.specs.Prelude.{◌≡◌, [], length, None, Some, option_map, option_and_then, slice_get};
ghost use Rattle.std.specs.Option.{unwrap_or};
ghost use Rattle.ild_schema.specs.Indexed.{labels, text_at};
ghost use Rattle.ild_schema.specs.Marks.{field_text, member_text, mark_text};
ghost use Rattle.ild_schema.specs.Parts.{part_names, part_texts};
ghost use Rattle.ild_schema.specs.declared.label.Label.{Label};

use crate::{EnumMember, EnumMembers, Field, Fields, Mark, Members, TypeDef};

/// Which text of a part is meant.
#[derive(Clone, Copy)]
pub(crate) enum Label {
    /// Its name.
    Name,
    /// The text under which it stands in a block.
    Text,
}

/// The name of a field in a block: the text that it is renamed to, or else its name (IPLD Schemas, "rename").
pub fn text_of_field(field: &Field) -> &str
    ensures { result.now ≡ field_text field.now }
{
    match &field.rename {
        Some(rename) => rename.as_str(),
        None => field.name.as_str(),
    }
}

/// The text of an enum's member in a block: the one behind it, or else its name.
pub fn text_of_member(member: &EnumMember) -> &str
    ensures { result.now ≡ member_text member.now }
{
    match &member.text {
        Some(text) => text.as_str(),
        None => member.name.as_str(),
    }
}

// The text behind a union's member, where one is there.
fn text_of_mark(mark: &Mark) -> Option<&str>
    ensures { option_map (λ s. s.now) result ≡ mark_text mark.now }
{
    match mark {
        Mark::Text(text) => Some(text.as_str()),
        Mark::Bare | Mark::Kind(_) => None,
    }
}

// The name of the field with a number.
fn field_name(fields: &Fields, part: usize) -> Option<&str>
    ensures { option_map (λ s. s.now) result ≡ option_and_then (λ f. Some f.name) (slice_get fields.now part) }
{
    match fields.get(part) {
        Some(field) => Some(field.name.as_str()),
        None => None,
    }
}

// The name of the union's member with a number.
fn member_name(members: &Members, part: usize) -> Option<&str>
    ensures { option_map (λ s. s.now) result ≡ option_and_then (λ m. Some m.name) (slice_get members.now part) }
{
    match members.get(part) {
        Some(member) => Some(member.name.as_str()),
        None => None,
    }
}

// The name of the enum's member with a number.
fn value_name(members: &EnumMembers, part: usize) -> Option<&str>
    ensures { option_map (λ s. s.now) result ≡ option_and_then (λ m. Some m.name) (slice_get members.now part) }
{
    match members.get(part) {
        Some(member) => Some(member.name.as_str()),
        None => None,
    }
}

// The name in a block of the field with a number.
fn field_spelled(fields: &Fields, part: usize) -> Option<&str>
    ensures { option_map (λ s. s.now) result ≡ option_and_then (λ f. Some (field_text f)) (slice_get fields.now part) }
{
    match fields.get(part) {
        Some(field) => Some(text_of_field(field)),
        None => None,
    }
}

// The text of the union's member with a number.
fn member_spelled(members: &Members, part: usize) -> Option<&str>
    ensures { option_map (λ s. s.now) result ≡ option_and_then (λ m. mark_text m.mark) (slice_get members.now part) }
{
    match members.get(part) {
        Some(member) => text_of_mark(&member.mark),
        None => None,
    }
}

// The text in a block of the enum's member with a number.
fn value_spelled(members: &EnumMembers, part: usize) -> Option<&str>
    ensures { option_map (λ s. s.now) result ≡ option_and_then (λ m. Some (member_text m)) (slice_get members.now part) }
{
    match members.get(part) {
        Some(member) => Some(text_of_member(member)),
        None => None,
    }
}

// The name of a part of a type.
fn name_at(def: &TypeDef, part: usize) -> Option<&str>
    ensures { option_map (λ s. s.now) result ≡ text_at (part_names def.now) part }
{
    match def {
        TypeDef::Struct(s) => field_name(&s.fields, part),
        TypeDef::Union(u) => member_name(&u.members, part),
        TypeDef::Enum(e) => value_name(&e.members, part),
        _ => None,
    }
}

// The text under which a part of a type stands in a block.
fn spelled_at(def: &TypeDef, part: usize) -> Option<&str>
    ensures { option_map (λ s. s.now) result ≡ text_at (part_texts def.now) part }
{
    match def {
        TypeDef::Struct(s) => field_spelled(&s.fields, part),
        TypeDef::Union(u) => member_spelled(&u.members, part),
        TypeDef::Enum(e) => value_spelled(&e.members, part),
        _ => None,
    }
}

/// A text of the part with a number, where it has one.
pub(crate) fn label_at(def: &TypeDef, label: Label, part: usize) -> Option<&str>
    ensures { option_map (λ s. s.now) result ≡ text_at (labels label def.now) part }
{
    match label {
        Label::Name => name_at(def, part),
        Label::Text => spelled_at(def, part),
    }
}

/// The same, or an empty text.
pub(crate) fn text_or_empty(def: &TypeDef, label: Label, part: usize) -> &str
    ensures { result.now ≡ unwrap_or (text_at (labels label def.now) part) [] }
{
    match label_at(def, label, part) {
        Some(text) => text,
        None => "",
    }
}

/// How many parts a type has.
pub(crate) fn count_parts(def: &TypeDef) -> usize
    ensures { (l : Label) → result ≡ length (labels l def.now) }
{
    match def {
        TypeDef::Struct(s) => s.fields.len(),
        TypeDef::Union(u) => u.members.len(),
        TypeDef::Enum(e) => e.members.len(),
        _ => 0,
    }
}
