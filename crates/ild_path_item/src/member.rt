//! Unions.
ghost use Rattle.std.specs.Prelude.{◌≡◌, ℕ, Some};
ghost use Rattle.ild_data.specs.Data.{Data};
ghost use Rattle.ild_path_item.specs.inside.Rewrites.{Rewrites};
ghost use Rattle.ild_path_last.specs.Change.{NewIs};
ghost use Rattle.ild_typed.specs.Composed.{union_form};

use ild_cbor::Node;
use ild_data::Octets;
use ild_path_marked::marked;
use ild_schema::UnionDef;
use ild_splice::SpliceErr;
use std::alloc::Global;

/// The item of a union's value, of which the member with a number becomes a new part.
pub(crate) fn member_item(
    alloc: Global,
    union: &UnionDef,
    number: Option<usize>,
    new: Option<Node<'_>>,
) -> Result<Option<Octets>, SpliceErr>
    ensures { (k : ℕ) (x : Data) → number ≡ Some k → NewIs new.entry (Some x) → Rewrites (union_form union.now.form union.now.members (k, x)) result }
{
    match (number, new) {
        (Some(number), Some(new)) => marked(alloc, union, number, &new),
        _ => Ok(None),
    }
}
