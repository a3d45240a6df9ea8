//! Laws of tables and of the results of resolving, over all syntax trees.
ghost use Rattle.std.specs.Prelude.{◌≡◌, List, None, Result};
ghost use Rattle.ild_parse_grammar.specs.declared.ast.Ast.{Ast};
ghost use Rattle.ild_schema.specs.Copies.{NoneIsCircular};
ghost use Rattle.ild_schema.specs.Spelled.{HasTexts};
ghost use Rattle.ild_schema.specs.Table.{IsTable};
ghost use Rattle.ild_schema.specs.declared.row.Row.{Row};
ghost use Rattle.ild_resolve.specs.Events.{events_of};
ghost use Rattle.ild_resolve.specs.Faults.{fault_in};
ghost use Rattle.ild_resolve.specs.Table.{Resolves, rows_of};
ghost use Rattle.ild_resolve.specs.Rise.{EventsRise};
ghost use Rattle.ild_resolve.specs.declared.error.ResolveErr.{ResolveErr};

/// A syntax tree without a fault, of whose types none is a copy of itself and whose texts are UTF-8, has a table.
pub fn faultless_have_tables()
    ensures { (ast : Ast) → fault_in (events_of ast) ≡ None → NoneIsCircular (rows_of ast) → HasTexts (rows_of ast) → IsTable (rows_of ast) }
{}

/// Resolving a syntax tree has one result.
pub fn one_result()
    ensures { (ast : Ast) (r s : Result (List Row) ResolveErr) → Resolves ast r → Resolves ast s → r ≡ s }
{}

/// The events of the tree of a text stand in the order of the text, so the first of them is the first in the text.
pub fn events_rise()
    ensures { EventsRise }
{}
