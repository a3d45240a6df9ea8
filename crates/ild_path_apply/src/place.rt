//! Places in a list.
ghost use Rattle.std.specs.Prelude.{◌≡◌, ℕ, Some, min};
ghost use Rattle.ild_cbor.specs.Nodes.{HasData};
ghost use Rattle.ild_cbor.specs.Scalar.{count_of};
ghost use Rattle.ild_data.specs.Data.{Data};

use ild_cbor::Node;

/// A place in a list, or the one behind its last item.
pub(crate) fn place_in(list: &Node<'_>, at: u64) -> u64
    ensures { (d : Data) (n : ℕ) → HasData list.now d → count_of d ≡ Some n → result ≡ min at n }
{
    at.min(list.count().unwrap_or(at))
}
