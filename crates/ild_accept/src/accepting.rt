//! Accepting a schema.
ghost use Rattle.std.specs.Prelude.{◌≡◌, IfErr, IfOk};
ghost use Rattle.ild_schema.specs.Accept.{IsAccepted};
ghost use Rattle.ild_accept.specs.Judged.{IsFaultOf};

use crate::AcceptErr;
use crate::cycle::first_cyclic;
use crate::table::judge_types;
use ild_schema::{Accepted, Rule, Schema};
use std::alloc::Global;

/// Judges a schema: by the rule on cycles, and then by the others.
fn judge(alloc: Global, schema: &Schema) -> Result<(), AcceptErr>
    ensures accepted { IfOk result (λ _. IsAccepted schema.now) }
    ensures fault { IfErr result (λ e. IsFaultOf schema.now e) }
{
    if let Some(ty) = first_cyclic(alloc, schema)? {
        return Err(AcceptErr::Fault {
            rule: Rule::Cycle,
            ty,
            at: schema.place(ty),
        });
    }
    judge_types(alloc, schema)?;
    Ok(())
}

/// Accepts a schema where no rule fails for any of its types; else tells the first that does: that on cycles for the
/// first type in the order of the table, else the first other for the first type for which one fails.
pub fn accept(alloc: Global, schema: Schema) -> Result<Accepted, AcceptErr>
    ensures same { IfOk result (λ accepted. accepted ≡ schema) }
    ensures accepted { IfOk result (λ _. IsAccepted schema) }
    ensures fault { IfErr result (λ e. IsFaultOf schema e) }
{
    judge(alloc, &schema)?;
    Ok(Accepted::of(schema))
}
