//! The rows of a table: the prelude, and then the declared types with their inline types.
ghost use Rattle.std.specs.Prelude.{◌≡◌, ◌⊎◌, ◌+◌, ◌≤◌, ◌++◌, length, None, Some, IfErr, IfOk, OnOk};
ghost use Rattle.std.specs.List.{flat_map};
ghost use Rattle.ild_resolve.specs.inside.Numbers.{number_in};
ghost use Rattle.ild_parse_grammar.specs.declared.ast.Decl.TheVariants as A;
ghost use Rattle.ild_schema.specs.Prelude.{prelude};
ghost use Rattle.ild_resolve.specs.Events.{decl_events, events_of, types_in};
ghost use Rattle.ild_resolve.specs.Faults.{first_wrong};
ghost use Rattle.ild_resolve.specs.inside.Judged.{Judged};
ghost use Rattle.ild_resolve.specs.Rows.{decl_rows, decls_rows};
ghost use Rattle.ild_resolve.specs.declared.error.ResolveErr.TheVariants as E;

use crate::ResolveErr;
use crate::body::def_of;
use crate::layout::layout;
use crate::reference::{begin, define};
use ild_data::List as AstList;
use ild_parse_grammar::{Ast, Decl, TypeDecl};
use ild_schema::{Origin, Row, prelude_rows};
use std::alloc::Global;
use std::collections::BTreeMap;

/// Appends the row of a declared type, and the rows of its inline types behind it.
fn push_type(
    rows: &mut Vec<Row>,
    numbers: &BTreeMap<&str, u32>,
    decl: TypeDecl,
) -> Result<(), ResolveErr>
    requires small { length rows.old.items + types_in (decl_events (A.Type decl)) ≤ 65543 }
    ensures words { Judged (number_in numbers.now) (decl_events (A.Type decl)) result }
    ensures rows { OnOk result (rows.new.items ≡ rows.old.items ++ decl_rows (number_in numbers.now) (length rows.old.items) (A.Type decl)) }
{
    let at = decl.name.at;
    let ty = begin(rows, decl.name.name, at, Origin::Declared)?;
    let def = def_of(rows, numbers, decl.body)?;
    define(rows, ty, def);
    Ok(())
}

/// Appends the rows of a declaration.
fn push_decl(
    rows: &mut Vec<Row>,
    numbers: &BTreeMap<&str, u32>,
    decl: Decl,
) -> Result<(), ResolveErr>
    requires small { length rows.old.items + types_in (decl_events decl) ≤ 65543 }
    ensures words { Judged (number_in numbers.now) (decl_events decl) result }
    ensures rows { OnOk result (rows.new.items ≡ rows.old.items ++ decl_rows (number_in numbers.now) (length rows.old.items) decl) }
{
    match decl {
        Decl::Type(decl) => push_type(rows, numbers, decl),
        Decl::Advanced(name) => {
            layout(&name)?;
            Ok(())
        }
    }
}

/// Appends the rows of declarations.
fn push_decls(
    rows: &mut Vec<Row>,
    numbers: &BTreeMap<&str, u32>,
    decls: AstList<Decl>,
) -> Result<(), ResolveErr>
    requires small { length rows.old.items + types_in (flat_map decl_events decls) ≤ 65543 }
    ensures words { Judged (number_in numbers.now) (flat_map decl_events decls) result }
    ensures rows { OnOk result (rows.new.items ≡ rows.old.items ++ decls_rows (number_in numbers.now) (length rows.old.items) decls) }
{
    for decl in decls.into_vec() {
        push_decl(rows, numbers, decl)?;
    }
    Ok(())
}

/// The rows of the table of a syntax tree, or its first wrong word.
pub(crate) fn table_of(
    alloc: Global,
    numbers: &BTreeMap<&str, u32>,
    ast: Ast,
) -> Result<Vec<Row>, ResolveErr>
    requires small { types_in (events_of ast) ≤ 65535 }
    ensures free { IfOk result (λ _. first_wrong (number_in numbers.now) (events_of ast) ≡ None) }
    ensures rows { IfOk result (λ rows. rows.items ≡ prelude ++ decls_rows (number_in numbers.now) 8 ast.decls) }
    ensures fault { IfErr result (λ e. (e ≡ E.Memory) ⊎ (first_wrong (number_in numbers.now) (events_of ast) ≡ Some e)) }
{
    let mut rows = prelude_rows(alloc)?;
    push_decls(&mut rows, numbers, ast.decls)?;
    Ok(rows)
}
