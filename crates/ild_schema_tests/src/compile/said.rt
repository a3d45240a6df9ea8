//! The rows of a table as texts, a line each: the number of a type with that of its base, its name and place, what it is, and its parts with
//! their types and places. How a type stands in a block is shown by the commands `new` and `show`.
use ild_schema::{EnumMember, Field, Member, Schema, Slot, TypeDef, TypeNo};
use std::alloc::{AllocError, Global};
use std::fmt::Write;

/// A word where it is so, else none.
fn if_so(is_so: bool, word: &'static str) -> &'static str {
    if is_so { word } else { "" }
}

fn say_part(out: &mut String, name: &str, at: usize, slot: Slot) -> Result<(), AllocError> {
    let nullable = if_so(slot.nullable, "nullable ");
    write!(out, " {name}@{at} {nullable}{}", slot.ty.0)
}

/// A part that is never null.
fn say_type(out: &mut String, name: &str, at: usize, ty: TypeNo) -> Result<(), AllocError> {
    write!(out, " {name}@{at} {}", ty.0)
}

fn say_fields(out: &mut String, fields: &[Field]) -> Result<(), AllocError> {
    for field in fields {
        out.push_str(if_so(field.optional, " optional"))?;
        say_part(out, field.name.as_str(), field.at, field.slot)?;
    }
    Ok(())
}

fn say_members(out: &mut String, members: &[Member]) -> Result<(), AllocError> {
    for member in members {
        say_type(out, member.name.as_str(), member.at, member.ty)?;
    }
    Ok(())
}

fn say_names(out: &mut String, members: &[EnumMember]) -> Result<(), AllocError> {
    for member in members {
        write!(out, " {}@{}", member.name.as_str(), member.at)?;
    }
    Ok(())
}

fn word(def: &TypeDef) -> &'static str {
    match def {
        TypeDef::Bool => "bool",
        TypeDef::Text => "string",
        TypeDef::Bytes => "bytes",
        TypeDef::Int => "int",
        TypeDef::Any => "any",
        TypeDef::Link(_) => "link",
        TypeDef::Unit(_) => "unit",
        TypeDef::List { .. } => "list",
        TypeDef::Map { .. } => "map",
        TypeDef::Struct(_) => "struct",
        TypeDef::Union(_) => "union",
        TypeDef::Enum(_) => "enum",
        TypeDef::Copy(_) => "copy",
    }
}

fn say_parts(out: &mut String, def: &TypeDef) -> Result<(), AllocError> {
    match def {
        TypeDef::Link(target) | TypeDef::Copy(target) => write!(out, " {}", target.0),
        TypeDef::List { elem, at } => say_part(out, "", *at, *elem),
        TypeDef::Map {
            key,
            key_at,
            value,
            at,
            ..
        } => {
            say_type(out, "", *key_at, *key)?;
            say_part(out, "", *at, *value)
        }
        TypeDef::Struct(def) => say_fields(out, def.fields.as_slice()),
        TypeDef::Union(def) => say_members(out, def.members.as_slice()),
        TypeDef::Enum(def) => say_names(out, def.members.as_slice()),
        _ => Ok(()),
    }
}

/// The row of a type, or nothing past the last.
fn say_row(out: &mut String, schema: &Schema, n: u32) -> Result<(), AllocError> {
    if n >= schema.types() {
        return Ok(());
    }
    let ty = TypeNo(n);
    let def = schema.def(ty);
    let base = schema.base(ty).0;
    write!(
        out,
        "{n}={base} {}@{} {}",
        schema.name(ty),
        schema.place(ty),
        word(def)
    )?;
    say_parts(out, def)?;
    out.push_str("\n")
}

/// The rows of a table from this number on.
pub(crate) fn rows(alloc: Global, schema: &Schema, first: u32) -> Result<String, AllocError> {
    let mut out = String::new(alloc);
    for n in first..schema.types() {
        say_row(&mut out, schema, n)?;
    }
    Ok(out)
}
