//! Equal values, made anew.
ghost use Rattle.std.specs.Prelude.{◌≡◌, IfOk};
ghost use Rattle.ild_schema.specs.ValueSeen.{optional_of, value_of};

use ild_schema::{Val, ValFields, ValPairs, ValPart, Vals};
use std::alloc::{AllocError, Global};

/// An equal value.
#[cycle(copy)]
pub fn copy(alloc: Global, val: &Val) -> Result<Val, AllocError>
    ensures { IfOk result (λ v. value_of v ≡ value_of val.now) }
{
    match val {
        Val::Null => Ok(Val::Null),
        Val::Bool(b) => Ok(Val::Bool(*b)),
        Val::Int(n) => Ok(Val::Int(*n)),
        Val::Text(text) => Ok(Val::Text(text.copy()?)),
        Val::Bytes(bytes) => Ok(Val::Bytes(bytes.copy()?)),
        Val::Link(cid) => Ok(Val::Link(cid.copy()?)),
        Val::List(vals) => Ok(Val::List(copy_elements(alloc, vals)?)),
        Val::Map(pairs) => Ok(Val::Map(copy_entries(alloc, pairs)?)),
        Val::Struct(fields) => Ok(Val::Struct(copy_fields(alloc, fields)?)),
        Val::Union(n, part) => Ok(Val::Union(*n, copy_part(alloc, part)?)),
        Val::Enum(n) => Ok(Val::Enum(*n)),
        Val::Unit => Ok(Val::Unit),
        Val::Any(tree) => Ok(Val::Any(tree.copy()?)),
    }
}

// The elements of a list.
#[cycle(copy)]
fn copy_elements(alloc: Global, vals: &Vals) -> Result<Vals, AllocError>
    ensures { IfOk result (λ v. v ≡ vals.now) }
{
    let mut copies = Vals::new(alloc);
    while let Some(val) = vals.get(copies.len()) {
        copies.push(copy(alloc, val)?)?;
    }
    Ok(copies)
}

// The entries of a map.
#[cycle(copy)]
fn copy_entries(alloc: Global, pairs: &ValPairs) -> Result<ValPairs, AllocError>
    ensures { IfOk result (λ v. v ≡ pairs.now) }
{
    let mut copies = ValPairs::new(alloc);
    while let Some(pair) = pairs.get(copies.len()) {
        let key = pair.0.copy()?;
        let val = copy(alloc, &pair.1)?;
        copies.push((key, val))?;
    }
    Ok(copies)
}

// The fields of a struct, those that are left out too.
#[cycle(copy)]
fn copy_fields(alloc: Global, fields: &ValFields) -> Result<ValFields, AllocError>
    ensures { IfOk result (λ v. v ≡ fields.now) }
{
    let mut copies = ValFields::new(alloc);
    while let Some(field) = fields.get(copies.len()) {
        copies.push(copy_field(alloc, field)?)?;
    }
    Ok(copies)
}

// A field.
#[cycle(copy)]
fn copy_field(alloc: Global, field: &Option<Val>) -> Result<Option<Val>, AllocError>
    ensures { IfOk result (λ v. optional_of v ≡ optional_of field.now) }
{
    match field {
        Some(val) => Ok(Some(copy(alloc, val)?)),
        None => Ok(None),
    }
}

// The value of a union's member.
#[cycle(copy)]
fn copy_part(alloc: Global, part: &ValPart) -> Result<ValPart, AllocError>
    ensures { IfOk result (λ v. v ≡ part.now) }
{
    ValPart::new(alloc, copy(alloc, part.get())?)
}
