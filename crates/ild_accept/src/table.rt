//! The rules that look at one type after the other.
ghost use Rattle.std.specs.Prelude.{◌≡◌, ◌<◌, IfOk, Some, length};
ghost use Rattle.ild_schema.specs.Accept.{fails_at, first_failing, type_fault};
ghost use Rattle.ild_schema.specs.Table.{def_at};
ghost use Rattle.ild_accept.specs.Judged.{Tells};
ghost use Rattle.ild_accept.specs.inside.Held.{HoldsKinds};
ghost use Rattle.ild_accept.specs.inside.Last.{last_fault, later_fault};

use crate::AcceptErr;
use crate::beside::{kind_fault, optional_fault};
use crate::kinds::kinds_of_all;
use crate::part::{implicit_fault, inline_fault, key_fault, null_fault, text_fault};
use ild_accept_rules::{delim_fault, name_fault, prefix_fault, strategy_fault};
use ild_schema::{Kinds, Rule, Schema, TypeDef, TypeNo};
use std::alloc::{AllocError, Global};

fn fails_at(rule: Rule, place: Option<usize>) -> Option<(Rule, usize)>
    ensures { result ≡ fails_at rule place }
{
    match place {
        Some(at) => Some((rule, at)),
        None => None,
    }
}

/// The first of the last four rules that fails.
fn last_rules(
    alloc: Global,
    schema: &Schema,
    kinds: &[Kinds],
    ty: TypeNo,
    at: usize,
    def: &TypeDef,
) -> Result<Option<(Rule, usize)>, AllocError>
    requires kinds { HoldsKinds schema.now kinds.now }
    requires within { ty.0 < length schema.now }
    requires def { def_at schema.now ty.0 ≡ Some def.now }
    ensures { IfOk result (λ fault. fault ≡ last_fault schema.now at def.now) }
{
    let name = fails_at(Rule::NameClash, name_fault(alloc, schema, ty, at, def)?);
    if name.is_some() {
        return Ok(name);
    }
    let inline = fails_at(Rule::InlineMember, inline_fault(schema, def));
    if inline.is_some() {
        return Ok(inline);
    }
    let key = fails_at(Rule::MapKey, key_fault(schema, kinds, def));
    if key.is_some() {
        return Ok(key);
    }
    Ok(fails_at(Rule::Strategy, strategy_fault(at, def)))
}

/// The first of the last eight rules that fails.
fn later_rules(
    alloc: Global,
    schema: &Schema,
    kinds: &[Kinds],
    ty: TypeNo,
    at: usize,
    def: &TypeDef,
) -> Result<Option<(Rule, usize)>, AllocError>
    requires kinds { HoldsKinds schema.now kinds.now }
    requires within { ty.0 < length schema.now }
    requires def { def_at schema.now ty.0 ≡ Some def.now }
    ensures { IfOk result (λ fault. fault ≡ later_fault schema.now at def.now) }
{
    let delim = fails_at(Rule::Delim, delim_fault(at, def));
    if delim.is_some() {
        return Ok(delim);
    }
    let text = fails_at(Rule::NotText, text_fault(schema, kinds, def));
    if text.is_some() {
        return Ok(text);
    }
    let optional = fails_at(Rule::OptionalPlace, optional_fault(def));
    if optional.is_some() {
        return Ok(optional);
    }
    let implicit = fails_at(Rule::Implicit, implicit_fault(schema, def));
    if implicit.is_some() {
        return Ok(implicit);
    }
    last_rules(alloc, schema, kinds, ty, at, def)
}

/// The first rule that fails for a type at a place, beside that on cycles.
fn type_fault(
    alloc: Global,
    schema: &Schema,
    kinds: &[Kinds],
    ty: TypeNo,
    at: usize,
    def: &TypeDef,
) -> Result<Option<(Rule, usize)>, AllocError>
    requires kinds { HoldsKinds schema.now kinds.now }
    requires within { ty.0 < length schema.now }
    requires def { def_at schema.now ty.0 ≡ Some def.now }
    ensures { IfOk result (λ fault. fault ≡ type_fault schema.now at def.now) }
{
    let null = fails_at(Rule::NullClash, null_fault(schema, kinds, def));
    if null.is_some() {
        return Ok(null);
    }
    let kind = fails_at(Rule::KindClash, kind_fault(schema, kinds, def));
    if kind.is_some() {
        return Ok(kind);
    }
    let prefix = fails_at(Rule::PrefixClash, prefix_fault(alloc, def)?);
    if prefix.is_some() {
        return Ok(prefix);
    }
    later_rules(alloc, schema, kinds, ty, at, def)
}

/// Judges each type by the rules beside that on cycles.
pub(crate) fn judge_types(alloc: Global, schema: &Schema) -> Result<(), AcceptErr>
    ensures { Tells (first_failing schema.now 0 schema.now) result }
{
    let kinds = kinds_of_all(alloc, schema)?;
    for n in 0..schema.types() {
        let ty = TypeNo(n);
        match type_fault(alloc, schema, &kinds, ty, schema.place(ty), schema.def(ty))? {
            Some((rule, at)) => return Err(AcceptErr::Fault { rule, ty, at }),
            None => {}
        }
    }
    Ok(())
}
