//! The node of a HAMT of which nothing is kept.
ghost use Rattle.std.specs.Prelude.{◌≡◌};
ghost use Rattle.ild_data.specs.Data.{Data};
ghost use Rattle.ild_cbor.specs.Nodes.{HasData};
ghost use Rattle.ild_open_parts.specs.Checked.{IsHamtRoot};
ghost use Rattle.ild_open_read.specs.inside.Passing.{IsRootView};

use ild_cbor::Node;
use ild_data::HamtShape;
use ild_node_slots::{NodeView, root_of};

/// The node of a root.
pub(crate) fn root_view<'b>(shape: HamtShape, root: &Node<'b>) -> NodeView<'b>
    requires root { ∥ IsHamtRoot shape root.now ∥₁ }
    ensures { (t : Data) → HasData root.now t → IsRootView shape t result }
{
    match root_of(*root, shape) {
        Ok(view) => view,
        Err(_) => unreachable!(),
    }
}
