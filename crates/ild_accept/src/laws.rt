//! Laws of accepted tables, over all tables.
ghost use Rattle.std.specs.Prelude.{List};
ghost use Rattle.ild_schema.specs.Accept.{IsAccepted};
ghost use Rattle.ild_schema.specs.declared.row.Row.{Row};
ghost use Rattle.ild_accept.specs.Verdict.{HasNoFault, HasOneFault};

/// A table has one first fault, and an accepted one has none.
pub fn one_verdict()
    ensures fault { (rows : List Row) → HasOneFault rows }
    ensures none { (rows : List Row) → IsAccepted rows → HasNoFault rows }
{}
