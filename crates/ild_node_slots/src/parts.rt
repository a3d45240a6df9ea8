//! The parts of nodes and buckets, item by item.
ghost use Rattle.std.specs.Prelude.{◌≡◌, ◌≤◌, slice_index, ℕ, List, ◌↔◌, IsTrue, option_map, map, None, Some};
ghost use Rattle.std.specs.FinMap.{find};
ghost use Rattle.ild_data.specs.Data.{Data, Items as DataItems, items_of, bytes, list};
ghost use Rattle.ild_cbor.specs.Nodes.{HasData};
ghost use Rattle.ild_cbor.specs.Scalar.{bytes_of};
ghost use Rattle.ild_cbor.specs.Steps.{HasItems};
ghost use Rattle.ild_data.specs.ByteOrder.{bytewise};
ghost use Rattle.ild_data.specs.Trie.{entry_data};
ghost use Rattle.ild_typed.specs.NodeReading.{text_in, pair_in, entry_in, rises, child_in, links_block, map_bit, map_bits, elements_fit, parts_fit};
ghost use Rattle.ild_node_slots.specs.inside.Reading.{byte_ones, ones_below};
ghost use Rattle.ild_node_slots.specs.Items.{IsAtItem};
ghost use Rattle.ild_node_slots.specs.inside.Parts.{PairIs, EntryIn};
ghost use Rattle.ild_node_slots.specs.Views.{ValueIn};

use crate::told::next_element;
use ild_cbor::{Items, Node};
use ild_data::{BlockId, HamtShape};

/// How long the CID of a block is.
const BLOCK_CID: usize = 36;

/// The two items of a list of two.
pub(crate) fn pair_in<'b>(node: &Node<'b>) -> Option<(Node<'b>, Node<'b>)>
    ensures { (t : Data) → HasData node.now t → PairIs node.now t (pair_in t) result }
{
    node.pair()
}

/// Bytes as a text.
pub(crate) fn text_in(bytes: &[u8]) -> Option<&str>
    ensures { option_map (λ s. s.now) result ≡ text_in bytes.now }
{
    match str::from_utf8(bytes) {
        Ok(text) => Some(text),
        Err(_) => None,
    }
}

/// The key and the value of an entry.
pub(crate) fn entry_in<'b>(node: &Node<'b>) -> Option<(&'b str, Node<'b>)>
    ensures { (t : Data) → HasData node.now t → EntryIn node.now t (entry_in t) result }
{
    let (key, value) = pair_in(node)?;
    match text_in(key.bytes()?) {
        Some(key) => Some((key, value)),
        None => None,
    }
}

/// Whether a key stands above the last one, if there is one.
pub fn rises(last: Option<&str>, key: &str) -> bool
    ensures { result ≡ rises (option_map (λ s. s.now) last.entry) key.now }
{
    match last {
        None => true,
        Some(last) => last < key,
    }
}

// Whether an item is this byte string.
fn is_bytes(node: &Node<'_>, wanted: &[u8]) -> bool
    ensures { (t : Data) → HasData node.now t → IsTrue result ↔ (bytes_of t ≡ Some wanted.now) }
{
    match node.bytes() {
        Some(bytes) => bytes == wanted,
        None => false,
    }
}

/// The value at a key among the entries of a bucket.
pub(crate) fn value_at<'b>(bucket: &Node<'b>, entries: Items<'b>, key: &[u8]) -> Option<Node<'b>>
    ensures { (es : List (List ℕ × Data)) → IsAtItem bucket.now (map entry_data es) 0 entries.entry → ValueIn bucket.now es key.now (find bytewise key.now es) result }
{
    for item in entries {
        let (found, value) = pair_in(&item)?;
        if is_bytes(&found, key) {
            return Some(value);
        }
    }
    None
}

/// The id of the block that a link leads to, where the item is such a link.
pub fn child_in(node: &Node<'_>) -> Option<BlockId>
    ensures { (t : Data) → HasData node.now t → option_map (λ id. id.0) result ≡ child_in t }
{
    match node.link() {
        Some(cid) => cid.block(),
        None => None,
    }
}

/// Whether a CID is that of a block: version 1, dag-cbor, and sha2-256 of 32 bytes.
pub(crate) fn links_block(cid: &[u8]) -> bool
    ensures { result ≡ links_block cid.now }
{
    if cid.len() != BLOCK_CID {
        return false;
    }
    (cid[0] == 0x01) & (cid[1] == 0x71) & (cid[2] == 0x12) & (cid[3] == 0x20)
}

/// Whether the bit of a slot is set in the map of a node.
pub fn map_bit(ones: &[u8], i: usize) -> bool
    ensures { result ≡ map_bit ones.now i }
{
    match ones.get(i / 8) {
        Some(byte) => (*byte >> (i % 8)) % 2 == 1,
        None => false,
    }
}

// How many bits of a byte are set. A byte past the last has none.
fn ones_in(ones: &[u8], j: usize) -> u64
    ensures count { result ≡ byte_ones (slice_index ones.now j) 8 }
    ensures few { result ≤ 8 }
{
    match ones.get(j) {
        Some(byte) => byte.count_ones() as u64,
        None => 0,
    }
}

/// How many slots before this one are used: those of whole bytes, and then bit by bit in its own byte.
pub(crate) fn ones_below(ones: &[u8], i: usize) -> u64
    ensures { result ≡ ones_below ones.now i }
{
    let mut below = 0;
    for j in 0..i / 8 {
        below += ones_in(ones, j);
    }
    for j in 8 * (i / 8)..i {
        if map_bit(ones, j) {
            below += 1;
        }
    }
    below
}

// Whether there is one element for each bit that is set.
fn elements_fit(ones: &[u8], slots: usize, most: u32, elements: Items<'_>) -> bool
    ensures { (ds : DataItems) → HasItems elements.entry ds → result ≡ elements_fit most (map_bits ones.now 0 slots) ds }
{
    let mut elements = elements;
    for i in 0..slots {
        let on = map_bit(ones, i);
        if on {
            if !next_element(&mut elements, most) {
                return false;
            }
        }
    }
    elements.next().is_none()
}

/// Whether a map and elements are those of a node of this shape.
pub(crate) fn parts_fit(ones: &[u8], elements: Items<'_>, shape: HamtShape) -> bool
    ensures { (ds : DataItems) → HasItems elements.entry ds → result ≡ parts_fit shape (bytes ones.now, list ds) }
{
    let slots = shape.slots();
    ones.len() == slots / 8 && elements_fit(ones, slots, shape.bucket, elements)
}
