//! The prelude (IPLD Schemas, "Schema Prelude").
ghost use Rattle.std.specs.Prelude.{◌≡◌, ◌++◌, ◌∷◌, [], IfOk, OnOk};
ghost use Rattle.ild_schema.specs.Prelude.{anything, given, number, prelude, with_others, with_scalars};
ghost use Rattle.ild_schema.specs.declared.def.MapForm.TheVariants as M;
ghost use Rattle.ild_schema.specs.declared.def.TypeDef.TheVariants as D;

use crate::{MapForm, Origin, Row, Slot, TypeDef, TypeNo};
use ild_data::Txt;
use std::alloc::{AllocError, Global};

/// Any value or null.
const ANYTHING: Slot = Slot {
    ty: TypeNo(0),
    nullable: true,
};

/// Appends a type of the prelude, which has no place in the text.
fn push_given(rows: &mut Vec<Row>, name: &str, def: TypeDef) -> Result<(), AllocError>
    ensures { OnOk result (rows.new.items ≡ rows.old.items ++ given name.now def ∷ []) }
{
    let name = Txt::of(*rows.allocator(), name)?;
    rows.push(Row {
        def,
        name,
        at: 0,
        origin: Origin::Prelude,
    })?;
    Ok(())
}

/// Appends `Any`, `Bool`, `Bytes` and `Int`.
fn push_scalars(rows: &mut Vec<Row>) -> Result<(), AllocError>
    ensures { OnOk result (rows.new.items ≡ with_scalars rows.old.items) }
{
    push_given(rows, "Any", TypeDef::Any)?;
    push_given(rows, "Bool", TypeDef::Bool)?;
    push_given(rows, "Bytes", TypeDef::Bytes)?;
    push_given(rows, "Int", TypeDef::Int)
}

/// `List`: any values, and null among them.
fn list() -> TypeDef
    ensures { result ≡ D.List anything 0 }
{
    TypeDef::List {
        elem: ANYTHING,
        at: 0,
    }
}

/// `Map`: from texts to any values, and null among them.
fn map() -> TypeDef
    ensures { result ≡ D.Map (number 7) 0 anything 0 M.Map }
{
    TypeDef::Map {
        key: TypeNo(7),
        key_at: 0,
        value: ANYTHING,
        at: 0,
        form: MapForm::Map,
    }
}

/// Appends `Link`, `List`, `Map` and `String`.
fn push_others(rows: &mut Vec<Row>) -> Result<(), AllocError>
    ensures { OnOk result (rows.new.items ≡ with_others rows.old.items) }
{
    push_given(rows, "Link", TypeDef::Link(TypeNo(0)))?;
    push_given(rows, "List", list())?;
    push_given(rows, "Map", map())?;
    push_given(rows, "String", TypeDef::Text)
}

/// The eight types of the prelude, with which each table begins.
pub fn prelude_rows(alloc: Global) -> Result<Vec<Row>, AllocError>
    ensures { IfOk result (λ rows. rows.items ≡ prelude) }
{
    let mut rows = Vec::new(alloc);
    push_scalars(&mut rows)?;
    push_others(&mut rows)?;
    Ok(rows)
}
