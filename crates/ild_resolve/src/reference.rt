//! References to types, and the rows of their inline types.
ghost use Rattle.std.specs.Prelude.{◌≡◌, ◌+◌, ◌<◌, ◌≤◌, ◌++◌, ◌∷◌, [], List, length, IfOk, IfErr, OnOk};
ghost use Rattle.ild_resolve.specs.inside.Numbers.{number_in};
ghost use Rattle.ild_parse_grammar.specs.Reference.{list, link, map};
ghost use Rattle.ild_parse_grammar.specs.ReferenceSeen.{refers_of};
ghost use Rattle.ild_schema.specs.Prelude.{number};
ghost use Rattle.ild_schema.specs.declared.row.Row.{Row};
ghost use Rattle.ild_schema.specs.declared.def.TypeDef.TheVariants as D;
ghost use Rattle.ild_resolve.specs.Events.{inline_events, reference_events, types_in, begins, uses};
ghost use Rattle.ild_resolve.specs.inside.Judged.{Judged};
ghost use Rattle.ild_resolve.specs.declared.error.ResolveErr.TheVariants as E;
ghost use Rattle.ild_resolve.specs.Rows.{inline, inline_rows, reference_rows, slot, type_in, type_of};

use crate::ResolveErr;
use crate::word::type_no;
use ild_data::Txt;
use ild_parse_grammar::{Inline, Ref, TypeName};
use ild_schema::{MapForm, Origin, Row, Slot, TypeDef, TypeNo};
use std::collections::BTreeMap;

/// Appends the row of a type whose definition comes later, and gives its number.
pub(crate) fn begin(
    rows: &mut Vec<Row>,
    name: Txt,
    at: usize,
    origin: Origin,
) -> Result<TypeNo, ResolveErr>
    requires small { length rows.old.items < 65543 }
    ensures rows { OnOk result (rows.new.items ≡ rows.old.items ++ record { def = D.Any; name = name; at = at; origin = origin } ∷ []) }
    ensures number { IfOk result (λ ty. ty.0 ≡ length rows.old.items) }
    ensures fault { IfErr result (λ e. e ≡ E.Memory) }
{
    let number = rows.len() as u32;
    rows.push(Row {
        def: TypeDef::Any,
        name,
        at,
        origin,
    })?;
    Ok(TypeNo(number))
}

/// Gives the type with a number its definition.
pub(crate) fn define(rows: &mut Vec<Row>, ty: TypeNo, def: TypeDef)
    requires within { ty.0 < length rows.old.items }
    ensures { (front after : List Row) (r : Row) → length front ≡ ty.0 → rows.old.items ≡ front ++ r ∷ after → rows.new.items ≡ front ++ record r { def = def } ∷ after }
{
    rows[ty.0 as usize].def = def;
}

/// The row of an inline type `&T`, under a name of its own.
pub(crate) fn link_row(
    rows: &mut Vec<Row>,
    numbers: &BTreeMap<&str, u32>,
    name: Txt,
    at: usize,
    target: &TypeName,
) -> Result<TypeNo, ResolveErr>
    requires small { length rows.old.items < 65543 }
    ensures words { Judged (number_in numbers.now) (begins at ∷ uses target.now ∷ []) result }
    ensures rows { OnOk result (rows.new.items ≡ rows.old.items ++ inline (number_in numbers.now) name (D.Link (type_of (number_in numbers.now) target.now)) at ∷ []) }
    ensures same { IfOk result (λ ty. ty ≡ number (length rows.old.items)) }
{
    let ty = begin(rows, name, at, Origin::Inline)?;
    let target = type_no(numbers, target)?;
    define(rows, ty, TypeDef::Link(target));
    Ok(ty)
}

/// The row of an inline type `&T` without a name.
fn bare_link_row(
    rows: &mut Vec<Row>,
    numbers: &BTreeMap<&str, u32>,
    at: usize,
    target: &TypeName,
) -> Result<TypeNo, ResolveErr>
    requires small { length rows.old.items < 65543 }
    ensures words { Judged (number_in numbers.now) (inline_events at (link target.now)) result }
    ensures rows { OnOk result (rows.new.items ≡ rows.old.items ++ inline_rows (number_in numbers.now) (length rows.old.items) at (link target.now)) }
    ensures same { IfOk result (λ ty. ty ≡ number (length rows.old.items)) }
{
    let name = Txt::of(*rows.allocator(), "")?;
    link_row(rows, numbers, name, at, target)
}

/// The row of an inline type `[R]`, and the rows inside it.
#[cycle(reference)]
fn list_row(
    rows: &mut Vec<Row>,
    numbers: &BTreeMap<&str, u32>,
    at: usize,
    elem: &Ref,
) -> Result<TypeNo, ResolveErr>
    requires small { length rows.old.items + types_in (inline_events at (list elem.now)) ≤ 65543 }
    ensures words { Judged (number_in numbers.now) (inline_events at (list elem.now)) result }
    ensures rows { OnOk result (rows.new.items ≡ rows.old.items ++ inline_rows (number_in numbers.now) (length rows.old.items) at (list elem.now)) }
    ensures same { IfOk result (λ ty. ty ≡ number (length rows.old.items)) }
{
    let name = Txt::of(*rows.allocator(), "")?;
    let ty = begin(rows, name, at, Origin::Inline)?;
    let slot = slot_in(rows, numbers, elem)?;
    let def = TypeDef::List {
        elem: slot,
        at: elem.at,
    };
    define(rows, ty, def);
    Ok(ty)
}

/// The row of an inline type `{K:R}`, and the rows inside it.
#[cycle(reference)]
fn map_row(
    rows: &mut Vec<Row>,
    numbers: &BTreeMap<&str, u32>,
    at: usize,
    key: &TypeName,
    value: &Ref,
) -> Result<TypeNo, ResolveErr>
    requires small { length rows.old.items + types_in (inline_events at (map key.now value.now)) ≤ 65543 }
    ensures words { Judged (number_in numbers.now) (inline_events at (map key.now value.now)) result }
    ensures rows { OnOk result (rows.new.items ≡ rows.old.items ++ inline_rows (number_in numbers.now) (length rows.old.items) at (map key.now value.now)) }
    ensures same { IfOk result (λ ty. ty ≡ number (length rows.old.items)) }
{
    let name = Txt::of(*rows.allocator(), "")?;
    let ty = begin(rows, name, at, Origin::Inline)?;
    let key_no = type_no(numbers, key)?;
    let slot = slot_in(rows, numbers, value)?;
    let def = TypeDef::Map {
        key: key_no,
        key_at: key.at,
        value: slot,
        at: value.at,
        form: MapForm::Map,
    };
    define(rows, ty, def);
    Ok(ty)
}

/// The number of an inline type: its own rows are appended, unless it is a bare name.
#[cycle(reference)]
fn inline_type(
    rows: &mut Vec<Row>,
    numbers: &BTreeMap<&str, u32>,
    at: usize,
    inline: &Inline,
) -> Result<TypeNo, ResolveErr>
    requires small { length rows.old.items + types_in (inline_events at (refers_of inline.now)) ≤ 65543 }
    ensures words { Judged (number_in numbers.now) (inline_events at (refers_of inline.now)) result }
    ensures rows { OnOk result (rows.new.items ≡ rows.old.items ++ inline_rows (number_in numbers.now) (length rows.old.items) at (refers_of inline.now)) }
    ensures same { IfOk result (λ ty. ty ≡ type_in (number_in numbers.now) (length rows.old.items) (refers_of inline.now)) }
{
    match inline {
        Inline::Type(name) => type_no(numbers, name),
        Inline::Link(name) => bare_link_row(rows, numbers, at, name),
        Inline::List(elem) => list_row(rows, numbers, at, elem),
        Inline::Map(key, value) => map_row(rows, numbers, at, key, value),
    }
}

/// What a reference stands for: a type, whose rows are appended unless it is a bare name, and whether null may stand there.
#[cycle(reference)]
pub(crate) fn slot_in(
    rows: &mut Vec<Row>,
    numbers: &BTreeMap<&str, u32>,
    reference: &Ref,
) -> Result<Slot, ResolveErr>
    requires small { length rows.old.items + types_in (reference_events reference.now) ≤ 65543 }
    ensures words { Judged (number_in numbers.now) (reference_events reference.now) result }
    ensures rows { OnOk result (rows.new.items ≡ rows.old.items ++ reference_rows (number_in numbers.now) (length rows.old.items) reference.now) }
    ensures same { IfOk result (λ s. s ≡ slot (number_in numbers.now) (length rows.old.items) reference.now) }
{
    let ty = inline_type(rows, numbers, reference.type_at, &reference.inline)?;
    Ok(Slot {
        ty,
        nullable: reference.nullable,
    })
}
