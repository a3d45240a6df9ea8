//! Reading a HAMT's root.
ghost use Rattle.std.specs.Prelude.{◌≡◌, ◌↔◌, ℕ, List, pos, Err, Some, IsTrue, IsSome, IsOk, IfSome, IfOk, IfErr};
ghost use Rattle.ild_data.specs.Data.{Data, Members};
ghost use Rattle.ild_data.specs.Trie.{TrieSlot, node_data};
ghost use Rattle.ild_cbor.specs.Nodes.{HasData, IsPart};
ghost use Rattle.ild_cbor.specs.Scalar.{int_of};
ghost use Rattle.ild_cbor.specs.Span.{place_of};
ghost use Rattle.ild_cbor.specs.Steps.{HasEntries};
ghost use Rattle.ild_typed.specs.Hamt.{root_map};
ghost use Rattle.ild_typed.specs.Node.{IsRoot};
ghost use Rattle.ild_node_slots.specs.Form.{IsNode, hash_alg, bucket_size};
ghost use Rattle.ild_node_slots.specs.Roots.{NextOf, HasOtherInt, IsRootView, IsRootWhy};
ghost use Rattle.ild_node_slots.specs.Views.{HasSlots};

use crate::node::node_of;
use crate::view::NodeView;
use ild_cbor::{Node, Pairs, Why};
use ild_data::HamtShape;

/// The code of sha2-256 (multihash).
const SHA2_256: u32 = 18;

// The value of the next entry, where it has this key.
fn next_at<'b>(entries: &mut Pairs<'b>, key: &str) -> Option<Node<'b>>
    ensures { (ms : Members) → HasEntries entries.old ms → NextOf entries.old ms key.now result entries.new }
{
    match entries.next() {
        Some((found, value)) => { if found == key { Some(value) } else { None } }
        None => None,
    }
}

fn is_int(node: &Node<'_>, wanted: u32) -> bool
    ensures { (t : Data) → HasData node.now t → IsTrue result ↔ (int_of t ≡ Some (pos wanted)) }
{
    match node.int() {
        Some(n) => n.get() == wanted as i128,
        None => false,
    }
}

fn has_other_int(node: &Node<'_>, key: &str, wanted: u32) -> bool
    ensures { (t : Data) → HasData node.now t → IsTrue result ↔ HasOtherInt t key.now wanted }
{
    match node.entry(key) {
        Some(value) => match value.int() {
            Some(_) => !is_int(&value, wanted),
            None => false,
        },
        None => false,
    }
}

// The node's item of a root map.
fn root_item<'b>(node: &Node<'b>, shape: HamtShape) -> Option<Node<'b>>
    ensures found { (t : Data) → HasData node.now t → IfSome result (λ n. (d : Data) × (t ≡ root_map shape d) × IsPart node.now n (place_of t 0) d) }
    ensures only { (d : Data) → HasData node.now (root_map shape d) → IsSome result }
{
    let mut entries = node.entries()?;
    let item = next_at(&mut entries, "hamt")?;
    let hash = next_at(&mut entries, "hashAlg")?;
    let bucket = next_at(&mut entries, "bucketSize")?;
    if entries.next().is_some() {
        return None;
    }
    if !is_int(&hash, SHA2_256) {
        return None;
    }
    if !is_int(&bucket, shape.bucket) {
        return None;
    }
    Some(item)
}

/// The node of a HAMT of this shape whose root an item is.
pub fn root_of<'b>(node: Node<'b>, shape: HamtShape) -> Result<NodeView<'b>, Why>
    // What is read is a root, and the view is that of its node, which stands behind its name.
    ensures found { (t : Data) → HasData node.entry t → IfOk result (IsRootView shape node.entry t) }
    // A root is read, as the slots of its node.
    ensures only { (slots : List TrieSlot) (t : Data) → HasData node.entry t → IsRoot shape slots t → IsOk result × IfOk result (λ v. HasSlots shape v slots) }
    // Another hash is told first, then another size of buckets, also of a map that is no root otherwise.
    ensures hash { (t : Data) → HasData node.entry t → (result ≡ Err Why.HashAlg) ↔ HasOtherInt t hash_alg 18 }
    ensures size { (t : Data) → HasData node.entry t → (result ≡ Err Why.BucketSize) ↔ ((HasOtherInt t hash_alg 18 → ⊥) × HasOtherInt t bucket_size shape.bucket) }
    ensures err { IfErr result IsRootWhy }
{
    if has_other_int(&node, "hashAlg", SHA2_256) {
        return Err(Why::HashAlg);
    }
    if has_other_int(&node, "bucketSize", shape.bucket) {
        return Err(Why::BucketSize);
    }
    match root_item(&node, shape) {
        Some(item) => node_of(item, shape),
        None => Err(Why::Trie),
    }
}
