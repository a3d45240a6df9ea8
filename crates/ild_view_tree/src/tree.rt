//! The trees for which items stand.
ghost use Rattle.std.specs.Prelude.{◌≡◌, ◌≤◌, IfOk, None};
ghost use Rattle.ild_cbor.specs.Nodes.{HasData};
ghost use Rattle.ild_cbor.specs.Steps.{items_of, members_of};
ghost use Rattle.ild_data.specs.Data.{Data, depth};
ghost use Rattle.ild_data.specs.Seen.{data_of};

use ild_cbor::Node;
use ild_data::{Entries, Octets, Tree, Trees, Txt};
use std::alloc::{AllocError, Global};

/// How many lists and maps may nest in a block.
const DEEPEST: u32 = 96;

// The tree of an item that is neither a list nor a map.
fn scalar_tree(alloc: Global, node: &Node<'_>) -> Result<Tree, AllocError>
    ensures { IfOk result (λ tree. (t : Data) → HasData node.now t → items_of t ≡ None → members_of t ≡ None → data_of tree ≡ t) }
{
    if let Some(n) = node.int() {
        return Ok(Tree::Int(n));
    }
    if let Some(text) = node.text() {
        return Ok(Tree::Text(Txt::of(alloc, text)?));
    }
    if let Some(bytes) = node.bytes() {
        return Ok(Tree::Bytes(Octets::of(alloc, bytes)?));
    }
    if let Some(b) = node.boolean() {
        return Ok(Tree::Bool(b));
    }
    match node.link() {
        Some(cid) => Ok(Tree::Link(cid.own(alloc)?)),
        None => Ok(Tree::Null),
    }
}

// The tree of an item that nests at most so deep.
fn tree_within(alloc: Global, node: &Node<'_>, room: u32) -> Result<Tree, AllocError>
    ensures { IfOk result (λ tree. (t : Data) → HasData node.now t → depth t ≤ room → data_of tree ≡ t) }
{
    if let Some(items) = node.items() {
        if room == 0 {
            return Ok(Tree::Null);
        }
        let mut trees = Trees::new(alloc);
        let mut left = items;
        while let Some(item) = left.next() {
            let tree = tree_within(alloc, &item, room - 1)?;
            trees.push(tree)?;
        }
        return Ok(Tree::List(trees));
    }
    if let Some(entries) = node.entries() {
        if room == 0 {
            return Ok(Tree::Null);
        }
        let mut members = Entries::new(alloc);
        let mut rest = entries;
        while let Some((key, value)) = rest.next() {
            let name = Txt::of(alloc, key)?;
            let part = tree_within(alloc, &value, room - 1)?;
            members.put(name, part)?;
        }
        return Ok(Tree::Map(members));
    }
    scalar_tree(alloc, node)
}

/// The tree for which an item stands.
pub(crate) fn tree_of(alloc: Global, node: &Node<'_>) -> Result<Tree, AllocError>
    ensures { IfOk result (λ tree. (t : Data) → HasData node.now t → data_of tree ≡ t) }
{
    tree_within(alloc, node, DEEPEST)
}
