//! The row of the struct.
ghost use Rattle.std.specs.Prelude.{◌≡◌, IfOk};
ghost use Rattle.ild_named_type.specs.Root.{part, root_parts, root_row};

use ild_data::Txt;
use ild_schema::{Field, Fields, Origin, Row, Slot, StructDef, StructForm, TypeDef, TypeNo};
use std::alloc::{AllocError, Global};

/// `Link` of the prelude.
const LINK: TypeNo = TypeNo(4);

/// `String` of the prelude.
const TEXT: TypeNo = TypeNo(7);

// A field of a value of a type.
fn part(alloc: Global, name: &str, ty: TypeNo) -> Result<Field, AllocError>
    ensures { IfOk result (λ field. field ≡ part name.now ty) }
{
    let name = Txt::of(alloc, name)?;
    let slot = Slot {
        ty,
        nullable: false,
    };
    Ok(Field {
        name,
        at: 0,
        optional: false,
        slot,
        rename: None,
        implicit: None,
    })
}

// The fields over a value of a type.
fn root_parts(alloc: Global, ty: TypeNo) -> Result<Fields, AllocError>
    ensures { IfOk result (λ fields. fields ≡ root_parts ty) }
{
    let mut parts = Fields::new(alloc);
    parts.push(part(alloc, "type", TEXT)?)?;
    parts.push(part(alloc, "value", ty)?)?;
    parts.push(part(alloc, "schema", LINK)?)?;
    Ok(parts)
}

/// The row of the struct over a value of a type.
pub fn root_row(alloc: Global, ty: TypeNo) -> Result<Row, AllocError>
    ensures { IfOk result (λ row. row ≡ root_row ty) }
{
    let fields = root_parts(alloc, ty)?;
    let name = Txt::of(alloc, "")?;
    let def = TypeDef::Struct(StructDef {
        fields,
        form: StructForm::Map,
    });
    Ok(Row {
        def,
        name,
        at: 0,
        origin: Origin::Inline,
    })
}
