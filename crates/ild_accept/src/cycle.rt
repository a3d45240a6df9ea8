//! The rule on cycles: no type is represented as itself. Types are given ranks, in a time that grows as the table; a type
//! that leads to lower ranks alone isn't represented as itself, and a search starts from the first other one.
ghost use Rattle.std.specs.Prelude.{◌≡◌, ◌<◌, All, Contains, IfOk, IfSome, MatchBool, MatchOption, OnOk, false, length, nat_lt, replicate, true, ℕ};
ghost use Rattle.std.specs.List.{list_all};
ghost use Rattle.ild_schema.specs.Cycles.{FirstIsCyclic, IsCyclic, NoneIsCyclic, steps_at, steps_of, struct_steps, union_steps};
ghost use Rattle.ild_accept.specs.inside.Search.{AreRanked, Grown, IsLow, Pushed, is_marked, rank_of};

use crate::rank::{rank_of, ranks_of};
use ild_schema::{Schema, StructDef, StructForm, TypeDef, TypeNo, UnionDef, UnionForm};
use std::alloc::{AllocError, Global};

fn struct_steps(alloc: Global, def: &StructDef) -> Result<Vec<u32>, AllocError>
    ensures { IfOk result (λ steps. steps.items ≡ struct_steps def.now.form def.now.fields) }
{
    match (&def.form, def.fields.as_slice()) {
        (StructForm::StringJoin(_), [field]) => Ok(vec![in alloc; field.slot.ty.0]?),
        _ => Ok(Vec::new(alloc)),
    }
}

fn union_steps(alloc: Global, def: &UnionDef) -> Result<Vec<u32>, AllocError>
    ensures { IfOk result (λ steps. steps.items ≡ union_steps def.now.form def.now.members) }
{
    match def.form {
        UnionForm::Kinded => def
            .members
            .as_slice()
            .iter()
            .map(|member| member.ty.0)
            .collect(alloc),
        _ => Ok(Vec::new(alloc)),
    }
}

/// The types as one of which alone a type may be represented.
fn steps_of(alloc: Global, def: &TypeDef) -> Result<Vec<u32>, AllocError>
    ensures { IfOk result (λ steps. steps.items ≡ steps_of def.now) }
{
    match def {
        TypeDef::Copy(target) => Ok(vec![in alloc; target.0]?),
        TypeDef::Union(u) => union_steps(alloc, u),
        TypeDef::Struct(s) => struct_steps(alloc, s),
        _ => Ok(Vec::new(alloc)),
    }
}

/// The steps of a type, or none where it isn't in the table.
pub(crate) fn steps_at(alloc: Global, schema: &Schema, ty: TypeNo) -> Result<Vec<u32>, AllocError>
    ensures same { IfOk result (λ steps. steps.items ≡ steps_at schema.now ty.0) }
    ensures within { IfOk result (λ steps. All (λ t. t < length schema.now) steps.items) }
{
    if ty.0 < schema.types() {
        let steps = steps_of(alloc, schema.def(ty))?;
        Ok(steps)
    } else {
        Ok(Vec::new(alloc))
    }
}

/// Lets a type that wasn't seen be looked at.
fn push_new(seen: &mut Vec<bool>, stack: &mut Vec<u32>, t: u32) -> Result<(), AllocError>
    requires { t < length seen.old.items }
    ensures grown { OnOk result (Grown (λ m. m ≡ t) seen.old.items stack.old.items seen.new.items stack.new.items) }
    ensures here { OnOk result (is_marked seen.new.items t ≡ true) }
{
    if !seen[t as usize] {
        seen[t as usize] = true;
        stack.push(t)?;
    }
    Ok(())
}

/// Lets each type that wasn't seen be looked at.
fn push_all(seen: &mut Vec<bool>, stack: &mut Vec<u32>, steps: &[u32]) -> Result<(), AllocError>
    requires { All (λ t. t < length seen.old.items) steps.now }
    ensures { OnOk result (Pushed steps.now seen.old.items stack.old.items seen.new.items stack.new.items) }
{
    for t in steps {
        push_new(seen, stack, *t)?;
    }
    Ok(())
}

/// Lets each type to which a type leads be looked at, where it wasn't seen.
fn push_steps(
    alloc: Global,
    schema: &Schema,
    seen: &mut Vec<bool>,
    stack: &mut Vec<u32>,
    n: u32,
) -> Result<(), AllocError>
    requires { length seen.old.items ≡ length schema.now }
    ensures { OnOk result (Pushed (steps_at schema.now n) seen.old.items stack.old.items seen.new.items stack.new.items) }
{
    let steps = steps_at(alloc, schema, TypeNo(n))?;
    push_all(seen, stack, &steps)
}

/// No type of a table is marked.
fn unmarked(alloc: Global, schema: &Schema) -> Result<Vec<bool>, AllocError>
    ensures { IfOk result (λ marks. marks.items ≡ replicate (length schema.now) false) }
{
    vec![in alloc; false; schema.types() as usize]
}

/// Whether a type reaches itself.
fn reaches_itself(alloc: Global, schema: &Schema, from: TypeNo) -> Result<bool, AllocError>
    requires { from.0 < length schema.now }
    ensures { IfOk result (λ b. MatchBool b (IsCyclic schema.now from.0) (IsCyclic schema.now from.0 → ⊥)) }
{
    let mut seen = unmarked(alloc, schema)?;
    let mut stack = Vec::new(alloc);
    push_steps(alloc, schema, &mut seen, &mut stack, from.0)?;
    while let Some(n) = stack.pop() {
        push_steps(alloc, schema, &mut seen, &mut stack, n)?;
    }
    Ok(seen[from.0 as usize])
}

fn is_lower(ranks: &[u32], t: u32, rank: u32) -> bool
    ensures { result ≡ nat_lt (rank_of ranks.now t) rank }
{
    rank_of(ranks, t) < rank
}

/// Whether types have lower ranks than this one.
fn are_lower(ranks: &[u32], types: &[u32], rank: u32) -> bool
    ensures { result ≡ list_all (λ t. nat_lt (rank_of ranks.now t) rank) types.now }
{
    types.iter().all(|t| is_lower(ranks, *t, rank))
}

/// Whether each step from a type leads to a lower rank.
fn is_low(alloc: Global, schema: &Schema, ranks: &[u32], n: u32) -> Result<bool, AllocError>
    ensures { IfOk result (λ b. b ≡ true → IsLow schema.now ranks.now n) }
{
    let steps = steps_at(alloc, schema, TypeNo(n))?;
    Ok(are_lower(ranks, &steps, rank_of(ranks, n)))
}

/// Whether no step leads to a higher rank.
fn are_ranked(alloc: Global, schema: &Schema, ranks: &[u32]) -> Result<bool, AllocError>
    ensures { IfOk result (λ b. b ≡ true → AreRanked schema.now ranks.now) }
{
    for n in 0..schema.types() {
        let steps = steps_at(alloc, schema, TypeNo(n))?;
        if !are_lower(ranks, &steps, rank_of(ranks, n).saturating_add(1)) {
            return Ok(false);
        }
    }
    Ok(true)
}

/// Whether a type reaches itself. One search tells; where the ranks are good, only a type that does is searched from.
fn is_cyclic(
    alloc: Global,
    schema: &Schema,
    ranks: &[u32],
    ranked: bool,
    n: u32,
) -> Result<bool, AllocError>
    requires within { n < length schema.now }
    requires ranked { ranked ≡ true → AreRanked schema.now ranks.now }
    ensures { IfOk result (λ b. MatchBool b (IsCyclic schema.now n) (IsCyclic schema.now n → ⊥)) }
{
    if ranked {
        if is_low(alloc, schema, ranks, n)? {
            return Ok(false);
        }
    }
    reaches_itself(alloc, schema, TypeNo(n))
}

/// The first type that is represented as itself, if there is one.
pub(crate) fn first_cyclic(alloc: Global, schema: &Schema) -> Result<Option<TypeNo>, AllocError>
    ensures { IfOk result (λ found. MatchOption found (NoneIsCyclic schema.now) (λ ty. (ty.0 < length schema.now) × FirstIsCyclic schema.now ty.0)) }
{
    let ranks = ranks_of(alloc, schema)?;
    let ranked = are_ranked(alloc, schema, &ranks)?;
    for n in 0..schema.types() {
        if is_cyclic(alloc, schema, &ranks, ranked, n)? {
            return Ok(Some(TypeNo(n)));
        }
    }
    Ok(None)
}
