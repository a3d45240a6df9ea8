//! The nodes of HAMTs.
ghost use Rattle.std.specs.Prelude.{List};
ghost use Rattle.ild_beneath.specs.Children.{Child as Told, element_children};
ghost use Rattle.ild_cbor.specs.Nodes.{HasData};
ghost use Rattle.ild_data.specs.CidView.{cid_bytes};
ghost use Rattle.ild_data.specs.Data.{Data, link};
ghost use Rattle.ild_beneath_read.specs.inside.Opened.{IsElements};
ghost use Rattle.ild_beneath_read.specs.inside.Pushes.{Pushes};

use crate::pair::pair_of;
use ild_cbor::{Items, Node};
use ild_data::CidRef;
use ild_dirty::Child;
use std::alloc::AllocError;

/// The elements of a node, where an item is a list of two that ends with a list.
pub(crate) fn elements_of<'b>(node: &Node<'b>) -> Option<Items<'b>>
    ensures { (d : Data) → HasData node.now d → IsElements d result }
{
    match pair_of(node) {
        Some((_, elements)) => elements.items(),
        None => None,
    }
}

/// Appends the child to which a link leads, at a place of this kind.
pub(crate) fn push_link(cid: &CidRef<'_>, kind: u32, out: &mut Vec<Child>) -> Result<(), AllocError>
    ensures { (f : Data → List Told) → Pushes result out.old.items out.new.items (element_children f kind (link (cid_bytes cid.now))) }
{
    match cid.block() {
        Some(id) => {
            out.push(Child { id, kind })?;
            Ok(())
        }
        None => Ok(()),
    }
}
