//! The blocks of HAMTs, spelled by hand (IPLD HashMap). Keys are their own hashes: four keys with one first letter stand in a node at the
//! second level.
use ild_data::block_id;
use ild_edges::MemStore;
use std::alloc::Global;

/// The root node of a HAMT without entries.
pub(crate) const EMPTY: &[u8] =
    b"\x82\x58\x20\0\0\0\0\0\0\0\0\0\0\0\0\0\0\0\0\0\0\0\0\0\0\0\0\0\0\0\0\0\0\0\0\x80";

/// The first bytes of a root node, up to the id of the node in the slot of a.
pub(crate) const AT_A: &[u8] =
    b"\x82\x58\x20\0\0\0\0\0\0\0\0\0\0\0\0\x02\0\0\0\0\0\0\0\0\0\0\0\0\0\0\0\0\0\0\0\x81\xd8\x2a\x58\x25\0\x01\x71\x12\x20";

/// And in that of b.
pub(crate) const AT_B: &[u8] =
    b"\x82\x58\x20\0\0\0\0\0\0\0\0\0\0\0\0\x04\0\0\0\0\0\0\0\0\0\0\0\0\0\0\0\0\0\0\0\x81\xd8\x2a\x58\x25\0\x01\x71\x12\x20";

/// The first bytes of a root node with nodes in both slots, up to the id of the first.
const AT_BOTH: &[u8] =
    b"\x82\x58\x20\0\0\0\0\0\0\0\0\0\0\0\0\x06\0\0\0\0\0\0\0\0\0\0\0\0\0\0\0\0\0\0\0\x82\xd8\x2a\x58\x25\0\x01\x71\x12\x20";

/// The first bytes of a link to a node.
const LINK: &[u8] = b"\xd8\x2a\x58\x25\0\x01\x71\x12\x20";

/// The first bytes of a node whose keys end with a, b, c and d, up to the first of its entries.
const NODE: &[u8] =
    b"\x82\x58\x20\0\0\0\0\0\0\0\0\0\0\0\0\x1e\0\0\0\0\0\0\0\0\0\0\0\0\0\0\0\0\0\0\0\x84";

/// The root map of a HAMT over its root node.
pub(crate) fn root_map(alloc: Global, node: &[u8]) -> Option<Vec<u8>> {
    let mut root = Vec::new(alloc);
    root.extend_from_slice(b"\xa3\x64hamt").ok()?;
    root.extend_from_slice(node).ok()?;
    root.extend_from_slice(b"\x67hashAlg\x12\x6abucketSize\x03")
        .ok()?;
    Some(root)
}

/// A node of four keys with one first letter, whose values take turns.
pub(crate) fn node_over(alloc: Global, letter: u8, one: &[u8], other: &[u8]) -> Option<Vec<u8>> {
    let mut node = NODE.to_vec(alloc).ok()?;
    for last in [b'a', b'b', b'c', b'd'] {
        node.extend_from_slice(&[0x81, 0x82, 0x42, letter, last])
            .ok()?;
        let value = if last % 2 == 1 { one } else { other };
        node.extend_from_slice(value).ok()?;
    }
    Some(node)
}

/// The root map over a node in a slot. The node is added to a store.
pub(crate) fn root_over(
    alloc: Global,
    front: &[u8],
    node: &[u8],
    store: &mut MemStore,
) -> Option<Vec<u8>> {
    store.add(node).ok()?;
    let mut root = front.to_vec(alloc).ok()?;
    root.extend_from_slice(&block_id(node).0).ok()?;
    root_map(alloc, &root)
}

/// The root map over a node in the slot of a and one in that of b. Both are added to a store.
pub(crate) fn root_over_both(
    alloc: Global,
    one: &[u8],
    other: &[u8],
    store: &mut MemStore,
) -> Option<Vec<u8>> {
    store.add(one).ok()?;
    store.add(other).ok()?;
    let mut root = AT_BOTH.to_vec(alloc).ok()?;
    root.extend_from_slice(&block_id(one).0).ok()?;
    root.extend_from_slice(LINK).ok()?;
    root.extend_from_slice(&block_id(other).0).ok()?;
    root_map(alloc, &root)
}
