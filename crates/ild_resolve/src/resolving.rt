//! From a syntax tree to the table of types.
ghost use Rattle.std.specs.Prelude.{◌≡◌, ◌⊎◌, ◌<◌, length, None, Some, IfOk, IfErr, Ok, Err};
ghost use Rattle.ild_schema.specs.Table.{place_at};
ghost use Rattle.ild_resolve.specs.Events.{events_of};
ghost use Rattle.ild_resolve.specs.Faults.{fault_in};
ghost use Rattle.ild_resolve.specs.Names.{names_in};
ghost use Rattle.ild_resolve.specs.Table.{Resolves, rows_of};

use crate::ResolveErr;
use crate::circular::first_circular;
use crate::survey::{names_of, survey};
use crate::table::table_of;
use ild_data::Txt;
use ild_parse_grammar::Ast;
use ild_schema::{Row, Schema, texts_of};
use std::alloc::Global;

/// The place of a type in the text.
fn place_of(rows: &[Row], n: u32) -> usize
    requires { n < length rows.now }
    ensures { place_at rows.now n ≡ Some result }
{
    rows[n as usize].at
}

/// The rows of a syntax tree whose declared names are kept, or its first fault but for those of copies.
fn rows_of(alloc: Global, names: &[Txt], ast: Ast) -> Result<Vec<Row>, ResolveErr>
    requires names { names.now ≡ names_in ast.decls }
    ensures free { IfOk result (λ _. fault_in (events_of ast) ≡ None) }
    ensures rows { IfOk result (λ rows. rows.items ≡ rows_of ast) }
    ensures fault { IfErr result (λ e. (e ≡ ResolveErr.Memory) ⊎ (fault_in (events_of ast) ≡ Some e)) }
{
    let numbers = survey(alloc, &ast, names)?;
    let rows = table_of(alloc, &numbers, ast)?;
    Ok(rows)
}

/// The table of types of a syntax tree, or its first fault.
pub fn resolve(alloc: Global, ast: Ast) -> Result<Schema, ResolveErr>
    // The table of the tree, which has no fault.
    ensures table { IfOk result (λ schema. Resolves ast (Ok schema)) }
    // The first fault of the tree.
    ensures fault { IfErr result (λ e. (e ≡ ResolveErr.Memory) ⊎ Resolves ast (Err e)) }
{
    let names = names_of(alloc, &ast)?;
    let rows = rows_of(alloc, &names, ast)?;
    if let Some(n) = first_circular(alloc, &rows)? {
        return Err(ResolveErr::CopyCycle {
            at: place_of(&rows, n),
        });
    }
    texts_of(&rows);
    Ok(Schema::with_names(alloc, rows, names)?)
}
