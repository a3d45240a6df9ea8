//! Where in an item a part of it begins.
ghost use Rattle.std.specs.Prelude.{◌≡◌, ℕ, ◌++◌, [], ◌∷◌, List, Some};
ghost use Rattle.ild_cbor.specs.Nodes.{HasData};
ghost use Rattle.ild_cbor.specs.declared.node.Node.{Node as Item};
ghost use Rattle.ild_data.specs.Data.{Data};
ghost use Rattle.ild_layer_places.specs.Places.{WayFinds, LeadsIn, PlacedAt, steps_of};
ghost use Rattle.ild_typed.specs.RootSpots.{in_node};
ghost use Rattle.ild_typed.specs.Spots.{Step, item, key as key_step, under};
ghost use Rattle.ild_typed.specs.Ways.{found_at};

use crate::head::head;
use crate::way::Way;
use ild_cbor::{Node, Piece};

// The item of a list that was found.
fn item_of<'b>(list: Option<Node<'b>>, i: u64) -> Option<Node<'b>>
    ensures { (n : Item) (w : Data) (way : List Step) → WayFinds n w way list.entry → WayFinds n w (way ++ (item i ∷ [])) result }
{
    match list {
        Some(list) => list.item(i),
        None => None,
    }
}

// The value under a key.
fn value_of<'b>(node: &Node<'b>, key: &str) -> Option<Node<'b>>
    ensures { (w : Data) → HasData node.now w → WayFinds node.now w (under key.now ∷ []) result }
{
    node.entry(key)
}

// How many bytes behind the first of a node a node in it begins.
fn behind(node: &Node<'_>, part: Option<Node<'_>>) -> usize
    ensures { (w : Data) (way : List Step) (p : ℕ) (d : Data) → WayFinds node.now w way part.entry → found_at way w ≡ Some (p, d) → result ≡ p }
{
    match part {
        Some(part) => part.span().0.saturating_sub(node.span().0),
        None => 0,
    }
}

// The key of an entry stands in front of its value.
fn key_place(node: &Node<'_>, key: &str) -> usize
    ensures { (w : Data) (p : ℕ) (d : Data) → HasData node.now w → found_at (key_step key.now ∷ []) w ≡ Some (p, d) → result ≡ p }
{
    behind(node, value_of(node, key))
        .saturating_sub(key.len())
        .saturating_sub(head(key.len()))
}

// The key or the value of an entry in an element of the node in a HAMT's root.
fn in_node<'b>(node: &Node<'b>, element: u64, entry: u64, part: u64) -> Option<Node<'b>>
    ensures { (w : Data) → HasData node.now w → WayFinds node.now w (in_node element entry part) result }
{
    let root = value_of(node, "hamt");
    let elements = item_of(root, 1);
    let bucket = item_of(elements, element);
    let pair = item_of(bucket, entry);
    item_of(pair, part)
}

// How many bytes behind the first of an item one begins to which a way leads.
fn place_in(node: &Node<'_>, way: &Way<'_>) -> usize
    ensures { (w : Data) (p : ℕ) (d : Data) → HasData node.now w → found_at (steps_of way.now) w ≡ Some (p, d) → result ≡ p }
{
    match way {
        Way::Here => 0,
        Way::Item(i) => behind(node, item_of(Some(*node), *i)),
        Way::Within(i, j) => behind(node, item_of(item_of(Some(*node), *i), *j)),
        Way::Key(key) => key_place(node, key),
        Way::Under(key) => behind(node, value_of(node, key)),
        Way::KeyInNode(element, entry) => behind(node, in_node(node, *element, *entry, 0)),
        Way::ValueInNode(element, entry) => behind(node, in_node(node, *element, *entry, 1)),
    }
}

/// How many bytes behind the first of the item of a piece the one begins to which a way leads.
pub fn place_of(piece: &Piece<'_>, way: &Way<'_>) -> usize
    ensures { LeadsIn piece.now (steps_of way.now) → PlacedAt piece.now (steps_of way.now) result }
{
    match piece {
        Piece::Node(node) => place_in(node, way),
        Piece::Inline(node, _) => place_in(node, way),
        Piece::Text(_) | Piece::Bytes(_) => 0,
    }
}
