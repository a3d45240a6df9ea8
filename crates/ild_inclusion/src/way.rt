//! The nodes on a key's way.
ghost use Rattle.std.specs.Prelude.{◌≡◌, ◌<◌, ◌+◌, ◌^◌, ◌↔◌, List, Option, length, true};
ghost use Rattle.ild_cbor.specs.Nodes.{HasData};
ghost use Rattle.ild_data.specs.Data.{Data};
ghost use Rattle.ild_data.specs.Spell.{id_of};
ghost use Rattle.ild_data.specs.Trie.{TrieSlot};
ghost use Rattle.ild_data.specs.TrieShape.{trie_levels};
ghost use Rattle.ild_inclusion.specs.Given.{BeneathGiven, EndGiven, NodeGiven, SpellingGiven, ValueGiven, WrongGiven};
ghost use Rattle.ild_inclusion.specs.Way.{NextNode, NodeAt, NodeIn, OnWay, Spelling};
ghost use Rattle.ild_node_slots.specs.Views.{HasSlots};

use crate::end::End;
use crate::fault::Reject;
use ild_cbor::{Node, check};
use ild_data::{BlockId, HamtShape, Octets, block_id};
use ild_node_slots::{NodeSlot, NodeView, has_level, index_of, node_of};

// A node, and the blocks behind its own.
#[derive(Clone, Copy)]
struct Beneath<'b> {
    node: NodeView<'b>,
    left: &'b [Octets],
}

/// Whether a block has an id.
pub(crate) fn is_named(block: &[u8], id: &BlockId) -> bool
    ensures { (result ≡ true) ↔ (id_of block.now ≡ id.now.0) }
{
    block_id(block).0 == id.0
}

/// The item of the block with a number.
pub(crate) fn item_in(i: usize, block: &[u8]) -> Result<Node<'_>, Reject>
    ensures { Spelling i block.now (SpellingGiven result) (WrongGiven result) }
{
    match check(block) {
        Ok(node) => Ok(node),
        Err(_) => Err(Reject::Cbor(i)),
    }
}

// The node of this shape that an item in the block with a number is.
fn node_at(shape: HamtShape, i: usize, node: Node<'_>) -> Result<NodeView<'_>, Reject>
    ensures { (t : Data) → HasData node.entry t → NodeAt shape i t (NodeGiven shape result) (WrongGiven result) }
{
    match node_of(node, shape) {
        Ok(view) => Ok(view),
        Err(_) => Err(Reject::Shape(i)),
    }
}

// The node that the block with a number has to be, which has to have this id.
fn node_in<'b>(
    shape: HamtShape,
    id: &BlockId,
    i: usize,
    block: &'b [u8],
) -> Result<NodeView<'b>, Reject>
    ensures { NodeIn shape id.now.0 i block.now (NodeGiven shape result) (WrongGiven result) }
{
    if !is_named(block, id) {
        return Err(Reject::Missing(i));
    }
    match item_in(i, block) {
        Ok(node) => node_at(shape, i, node),
        Err(reject) => Err(reject),
    }
}

// The node behind a link in block `at`: the next of the blocks that are left.
fn next_node<'b>(
    shape: HamtShape,
    id: &BlockId,
    at: usize,
    left: &'b [Octets],
) -> Result<Beneath<'b>, Reject>
    requires { at + length left.now + 1 < 2 ^ 64 }
    ensures { NextNode shape id.now.0 at left.now (BeneathGiven shape result) (WrongGiven result) }
{
    match left.split_first() {
        Some((block, left)) => match node_in(shape, id, at + 1, block.as_slice()) {
            Ok(node) => Ok(Beneath { node, left }),
            Err(reject) => Err(reject),
        },
        None => Err(Reject::Missing(at + 1)),
    }
}

// The end of a way.
fn ended_in<'b>(value: Option<Node<'b>>, at: usize, left: &'b [Octets]) -> Result<End<'b>, Reject>
    requires { at + length left.now + 1 < 2 ^ 64 }
    ensures { (o : Option Data) → ValueGiven o value.entry → EndGiven result at left.now o }
{
    Ok(End { value, at, left })
}

/// Where the way of a key ends in a HAMT of this shape. It starts in a node of block `at`, at a depth, and goes through the blocks
/// that are left.
#[cycle(way)]
pub(crate) fn find_end<'b>(
    shape: HamtShape,
    node: NodeView<'b>,
    key: &str,
    hash: &[u8; 32],
    depth: u32,
    at: usize,
    left: &'b [Octets],
) -> Result<End<'b>, Reject>
    requires low { depth < trie_levels shape }
    requires few { at + length left.now + 1 < 2 ^ 64 }
    ensures { (slots : List TrieSlot) → HasSlots shape node.entry slots → OnWay shape hash.now key.now (EndGiven result) (WrongGiven result) depth at slots left.now }
{
    match node.slot(index_of(hash, depth, shape)) {
        NodeSlot::Empty => ended_in(None, at, left),
        NodeSlot::Bucket(bucket) => ended_in(bucket.find(key), at, left),
        NodeSlot::Child(id) => {
            if !has_level(shape, depth as usize + 1) {
                return Err(Reject::Shape(at));
            }
            match next_node(shape, &id, at, left) {
                Ok(beneath) => find_end(
                    shape,
                    beneath.node,
                    key,
                    hash,
                    depth + 1,
                    at + 1,
                    beneath.left,
                ),
                Err(reject) => Err(reject),
            }
        }
    }
}
