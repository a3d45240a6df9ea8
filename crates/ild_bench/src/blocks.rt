//! Work over the bytes of one block. Each answers a sum that depends on all that was done, or `None` where the bytes are no
//! such block.
use ild_cbor::{Node, check};
use ild_data::block_id;

/// The block is checked.
pub(crate) fn check_all(bytes: &[u8], times: u32) -> Option<u64> {
    let mut sum: u64 = 0;
    for _ in 0..times {
        let node = check(bytes).ok()?;
        sum = sum.wrapping_add(node.span().1 as u64);
    }
    Some(sum)
}

/// Goes over the items of a list.
fn items_of(node: &Node<'_>) -> Option<u64> {
    let mut sum: u64 = 0;
    for item in node.items()? {
        sum = sum.wrapping_add(item.span().0 as u64);
    }
    Some(sum)
}

/// All items of a list are gone over.
pub(crate) fn all_items(bytes: &[u8], times: u32) -> Option<u64> {
    let node = check(bytes).ok()?;
    let mut sum: u64 = 0;
    for _ in 0..times {
        sum = sum.wrapping_add(items_of(&node)?);
    }
    Some(sum)
}

/// Goes over the entries of a map.
fn entries_of(node: &Node<'_>) -> Option<u64> {
    let mut sum: u64 = 0;
    for (key, value) in node.entries()? {
        sum = sum
            .wrapping_add(key.len() as u64)
            .wrapping_add(value.span().0 as u64);
    }
    Some(sum)
}

/// All entries of a map are gone over.
pub(crate) fn all_entries(bytes: &[u8], times: u32) -> Option<u64> {
    let node = check(bytes).ok()?;
    let mut sum: u64 = 0;
    for _ in 0..times {
        sum = sum.wrapping_add(entries_of(&node)?);
    }
    Some(sum)
}

/// The last key of a map.
fn last_key<'b>(node: &Node<'b>) -> Option<&'b str> {
    let mut last = None;
    for (key, _) in node.entries()? {
        last = Some(key);
    }
    last
}

/// The value at the last key of a map is found.
pub(crate) fn last_entry(bytes: &[u8], times: u32) -> Option<u64> {
    let node = check(bytes).ok()?;
    let key = last_key(&node)?;
    let mut sum: u64 = 0;
    for _ in 0..times {
        sum = sum.wrapping_add(node.entry(key)?.span().0 as u64);
    }
    Some(sum)
}

/// The id of the block is computed.
pub(crate) fn all_ids(bytes: &[u8], times: u32) -> Option<u64> {
    let mut sum: u64 = 0;
    for _ in 0..times {
        sum = sum.wrapping_add(block_id(bytes).0[0] as u64);
    }
    Some(sum)
}
