//! Parts of a value that are kept, where it is to be kept.
ghost use Rattle.std.specs.Prelude.{◌≡◌, ◌++◌, ◌∷◌, [], is_some, true, OnOk, IfErr, IfOk};
ghost use Rattle.ild_schema.specs.Value.{no_values, optionals_list, pairs_list, values_list};
ghost use Rattle.ild_schema.specs.ValueSeen.{optional_of, value_of};
ghost use Rattle.ild_open_parts.specs.Leaf.{IsImplied, IsUnionWith, scalar_value};
ghost use Rattle.ild_open_parts.specs.declared.fault.OpenFault.TheVariants.{Memory};

use crate::fault::OpenFault;
use ild_cbor::Piece;
use ild_data::Txt;
use ild_schema::{Field, Scalar, Val, ValFields, ValPairs, ValPart, Vals};
use std::alloc::{AllocError, Global};

/// No element, with room for those of a list where they are to be kept.
pub fn vals_for(alloc: Global, keep: bool, list: &Piece<'_>) -> Result<Vals, AllocError>
    ensures { IfOk result (λ made. made ≡ no_values) }
{
    match list {
        Piece::Node(node) if keep => Vals::with_room(alloc, node.count().unwrap_or(0) as usize),
        _ => Ok(Vals::new(alloc)),
    }
}

/// Appends an element where it is to be kept.
pub fn add(vals: &mut Vals, keep: bool, val: Val) -> Result<(), AllocError>
    ensures { OnOk result (keep ≡ true → values_list vals.new ≡ values_list vals.old ++ value_of val ∷ []) }
{
    if keep {
        vals.push(val)?;
    }
    Ok(())
}

/// Appends an entry where it is to be kept.
pub fn add_pair(
    alloc: Global,
    pairs: &mut ValPairs,
    keep: bool,
    key: &str,
    val: Val,
) -> Result<(), AllocError>
    ensures { OnOk result (keep ≡ true → pairs_list pairs.new ≡ pairs_list pairs.old ++ (key.now, value_of val) ∷ []) }
{
    if keep {
        let key = Txt::of(alloc, key)?;
        pairs.push((key, val))?;
    }
    Ok(())
}

/// Appends a field where it is to be kept.
pub fn add_field(fields: &mut ValFields, keep: bool, val: Option<Val>) -> Result<(), AllocError>
    ensures { OnOk result (keep ≡ true → optionals_list fields.new ≡ optionals_list fields.old ++ optional_of val ∷ []) }
{
    if keep {
        fields.push(val)?;
    }
    Ok(())
}

/// The union with a member, where it is to be kept, and else anything.
pub fn union_with(alloc: Global, keep: bool, number: u32, val: Val) -> Result<Val, OpenFault>
    ensures ok { IfOk result (IsUnionWith keep number val) }
    ensures err { IfErr result (λ e. e ≡ Memory) }
{
    if keep {
        Ok(Val::Union(number, ValPart::new(alloc, val)?))
    } else {
        Ok(Val::Null)
    }
}

// The value that a scalar is.
fn scalar_val(scalar: &Scalar) -> Result<Val, AllocError>
    ensures { IfOk result (λ val. value_of val ≡ scalar_value scalar.now) }
{
    match scalar {
        Scalar::Bool(truth) => Ok(Val::Bool(*truth)),
        Scalar::Int(integer) => Ok(Val::Int(*integer)),
        Scalar::Text(text) => Ok(Val::Text(text.copy()?)),
    }
}

/// The value of a field that is left out.
pub(crate) fn implied(field: &Field) -> Result<Val, OpenFault>
    requires { is_some field.now.implicit ≡ true }
    ensures ok { IfOk result (IsImplied field.now) }
    ensures err { IfErr result (λ e. e ≡ Memory) }
{
    match &field.implicit {
        Some(scalar) => Ok(scalar_val(scalar)?),
        None => unreachable!(),
    }
}
