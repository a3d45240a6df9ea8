//! Words: the names of types.
ghost use Rattle.std.specs.Prelude.{◌≡◌, ℕ, List, Option, [], ◌∷◌, IfOk};
ghost use Rattle.ild_resolve.specs.inside.Numbers.{number_in};
ghost use Rattle.ild_resolve.specs.Events.{uses};
ghost use Rattle.ild_resolve.specs.inside.Judged.{Judged};
ghost use Rattle.ild_resolve.specs.Rows.{type_of};

use crate::ResolveErr;
use ild_parse_grammar::TypeName;
use ild_schema::TypeNo;
use std::collections::BTreeMap;

/// The type for which a name stands.
pub(crate) fn type_no(numbers: &BTreeMap<&str, u32>, name: &TypeName) -> Result<TypeNo, ResolveErr>
    ensures words { Judged (number_in numbers.now) (uses name.now ∷ []) result }
    ensures same { IfOk result (λ ty. ty ≡ type_of (number_in numbers.now) name.now) }
{
    let at = name.at;
    let text = name.name.as_str();
    if text == "Float" {
        return Err(ResolveErr::Float { at });
    }
    match numbers.get(text) {
        Some(number) => Ok(TypeNo(*number)),
        None => Err(ResolveErr::Unknown { at }),
    }
}
