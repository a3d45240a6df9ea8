//! Reading a HAMT's nodes.
ghost use Rattle.std.specs.Prelude.{◌≡◌, ℕ, List, IsOk, IfOk, IfErr, IfSome, MatchOption, false};
ghost use Rattle.ild_data.specs.Data.{Data};
ghost use Rattle.ild_data.specs.Trie.{TrieSlot, node_data};
ghost use Rattle.ild_cbor.specs.Nodes.{HasData};
ghost use Rattle.ild_node_slots.specs.Form.{IsNode};
ghost use Rattle.ild_typed.specs.NodeReading.{node_fits};
ghost use Rattle.ild_node_slots.specs.Views.{HasSlots, IsNodeItem, IsViewOf, view_node, view_shape};

use crate::parts::{pair_in, parts_fit};
use crate::view::NodeView;
use ild_cbor::{Node, Why};
use ild_data::HamtShape;

/// The node of a HAMT of this shape that an item is, of which is known that it is one: its elements aren't gone over.
pub fn known_node<'b>(node: Node<'b>, shape: HamtShape) -> NodeView<'b>
    requires { ∥ IsNodeItem shape node ∥₁ }
    ensures own { view_shape result ≡ shape }
    ensures only { (slots : List TrieSlot) → HasData node.entry (node_data slots) → IsNode shape slots → HasSlots shape result slots }
{
    let Some((ones, data)) = pair_in(&node) else {
        unreachable!();
    };
    let Some(map) = ones.bytes() else {
        unreachable!();
    };
    let Some(elements) = data.items() else {
        unreachable!();
    };
    NodeView {
        node,
        map,
        data,
        elements,
        shape,
    }
}

// The view of a node of this shape, or `None` where the item is none.
fn view_of<'b>(node: Node<'b>, shape: HamtShape) -> Option<NodeView<'b>>
    ensures node { IfSome result (λ v. view_node v ≡ node.entry) }
    ensures view { (t : Data) → HasData node.entry t → MatchOption result (node_fits shape t ≡ false) (λ v. IsViewOf shape v t) }
{
    let (ones, data) = pair_in(&node)?;
    let map = ones.bytes()?;
    let elements = data.items()?;
    if !parts_fit(map, elements, shape) {
        return None;
    }
    Some(NodeView {
        node,
        map,
        data,
        elements,
        shape,
    })
}

/// The node of a HAMT of this shape that an item is.
pub fn node_of<'b>(node: Node<'b>, shape: HamtShape) -> Result<NodeView<'b>, Why>
    // What is read is a node.
    ensures found { (t : Data) → HasData node.entry t → IfOk result (λ v. (slots : List TrieSlot) × (t ≡ node_data slots) × HasSlots shape v slots) }
    // A node is read, as its slots.
    ensures only { (slots : List TrieSlot) → HasData node.entry (node_data slots) → IsNode shape slots → IsOk result × IfOk result (λ v. HasSlots shape v slots) }
    ensures item { IfOk result (λ v. view_node v ≡ node.entry) }
    ensures err { IfErr result (λ why. why ≡ Why.Trie) }
{
    match view_of(node, shape) {
        Some(view) => Ok(view),
        None => Err(Why::Trie),
    }
}
