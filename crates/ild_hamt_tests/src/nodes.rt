//! Nodes that are written and read again.
use ild_cbor::check;
use ild_data::{BlockId, HamtShape, Octets};
use ild_emit::Emit;
use ild_hamt_samples::rows_of;
use ild_node::{
    NewHold, NodeSlot, NodeView, node_of, root_of, write_node, write_root, write_slots,
};
use std::alloc::Global;
use std::test::Fail;

pub(crate) const EMPTY: &[u8] =
    b"\x82\x58\x20\x00\x00\x00\x00\x00\x00\x00\x00\x00\x00\x00\x00\x00\x00\x00\x00\x00\x00\x00\x00\x00\x00\x00\x00\x00\x00\x00\x00\x00\x00\x00\x00\x80";

const EMPTY_ROOT: &[u8] =
    b"\xa3\x64\x68\x61\x6d\x74\x82\x58\x20\x00\x00\x00\x00\x00\x00\x00\x00\x00\x00\x00\x00\x00\x00\x00\x00\x00\x00\x00\x00\x00\x00\x00\x00\x00\x00\x00\x00\x00\x00\x00\x00\x80\x67\x68\x61\x73\x68\x41\x6c\x67\x12\x6a\x62\x75\x63\x6b\x65\x74\x53\x69\x7a\x65\x03";

/// A word for what a slot holds.
fn held(slot: NodeSlot<'_>) -> u64 {
    match slot {
        NodeSlot::Empty => 1000,
        NodeSlot::Bucket(bucket) => (bucket.len() as u64).saturating_add(2000),
        NodeSlot::Child(id) => id.0[0] as u64,
    }
}

/// How many slots a walk gives.
fn count(view: NodeView<'_>) -> u64 {
    let mut count = 0u64;
    for _ in view.slots() {
        count = count.wrapping_add(1);
    }
    count
}

#[test]
fn no_entries(rt: HostRuntime) -> Result<(), Fail> {
    let block = write_node(rt.alloc(), HamtShape::usual(), &[])?;
    assert_eq!(rt; block.as_slice(), EMPTY);
    let node = check(block.as_slice()).ok().ok_or("a block")?;
    assert_eq!(rt;
        write_root(rt.alloc(), HamtShape::usual(), &node)?.as_slice(),
        EMPTY_ROOT
    );
    let root = check(EMPTY_ROOT).ok().ok_or("a block")?;
    let view = root_of(root, HamtShape::usual()).ok().ok_or("a root")?;
    assert_eq!(rt; held(view.slot(255)), 1000);
    assert_eq!(rt; count(view), 256);
    Ok(())
}

/// The block of a node with a child at each index, whose id is the index 32 times, but for the last, which has a bucket.
fn full(alloc: Global) -> Result<Octets, Fail> {
    let mut out = Emit::new(alloc);
    out.head(4, 2)?;
    out.bytes(&[0xff; 32])?;
    out.head(4, 256)?;
    for i in 0..255u8 {
        out.block_link(&BlockId([i; 32]))?;
    }
    out.spelled(b"\x82\x82\x41\x61\x01\x82\x41\x62\x02")?;
    Ok(out.finish())
}

/// The node of three bits that has a child at index 0, whose id is 32 sevens, and two entries at index 2.
const OF_EIGHT: &[u8] =
    b"\x82\x41\x05\x82\xd8\x2a\x58\x25\x00\x01\x71\x12\x20\x07\x07\x07\x07\x07\x07\x07\x07\x07\x07\x07\x07\x07\x07\x07\x07\x07\x07\x07\x07\x07\x07\x07\x07\x07\x07\x07\x07\x07\x07\x07\x07\x82\x82\x41\x61\x01\x82\x41\x62\x02";

/// The slots of that node.
fn eight_slots(alloc: Global) -> Result<Vec<Option<NewHold>>, Fail> {
    let mut slots = Vec::new(alloc);
    slots.push(Some(NewHold::Child(BlockId([7; 32]))))?;
    slots.push(None)?;
    let rows = rows_of(alloc, &[("a", 1), ("b", 2)])?;
    slots.push(Some(NewHold::Bucket(rows)))?;
    for _ in 3..8 {
        slots.push(None)?;
    }
    Ok(slots)
}

/// The slots of the full node.
fn full_slots(alloc: Global) -> Result<Vec<Option<NewHold>>, Fail> {
    let mut slots = Vec::new(alloc);
    for i in 0..255u8 {
        slots.push(Some(NewHold::Child(BlockId([i; 32]))))?;
    }
    let rows = rows_of(alloc, &[("a", 1), ("b", 2)])?;
    slots.push(Some(NewHold::Bucket(rows)))?;
    Ok(slots)
}

#[test]
fn of_all_slots(rt: HostRuntime) -> Result<(), Fail> {
    let slots = eight_slots(rt.alloc())?;
    let block = write_slots(rt.alloc(), &slots)?;
    assert_eq!(rt; block.as_slice(), OF_EIGHT);
    let slots = full_slots(rt.alloc())?;
    let block = write_slots(rt.alloc(), &slots)?;
    assert_eq!(rt; block.as_slice(), full(rt.alloc())?.as_slice());
    Ok(())
}

fn is_full(view: NodeView<'_>) -> bool {
    let mut i = 0u64;
    let mut good = true;
    for slot in view.slots() {
        let held = held(slot);
        good &= held == if i < 255 { i } else { 2002 };
        i = i.wrapping_add(1);
    }
    good && i == 256
}

#[test]
fn all_bits(rt: HostRuntime) -> Result<(), Fail> {
    let block = full(rt.alloc())?;
    let node = check(block.as_slice()).ok().ok_or("a block")?;
    let view = node_of(node, HamtShape::usual()).ok().ok_or("a node")?;
    assert_eq!(rt; is_full(view), true);
    assert_eq!(rt; held(view.slot(0)), 0);
    assert_eq!(rt; held(view.slot(8)), 8);
    assert_eq!(rt; held(view.slot(254)), 254);
    assert_eq!(rt; held(view.slot(255)), 2002);
    Ok(())
}

#[test]
fn found_in_a_bucket(rt: HostRuntime) -> Result<(), Fail> {
    let block = full(rt.alloc())?;
    let node = check(block.as_slice()).ok().ok_or("a block")?;
    let view = node_of(node, HamtShape::usual()).ok().ok_or("a node")?;
    let bucket = match view.slot(255) {
        NodeSlot::Bucket(bucket) => bucket,
        _ => return Err("a bucket".into()),
    };
    assert_eq!(rt;
        bucket.find("b").ok_or("a value")?.spelling(),
        [2].as_slice()
    );
    assert_eq!(rt; bucket.find("c").is_none(), true);
    assert_eq!(rt; bucket.entry(0).ok_or("an entry")?.0, "a");
    assert_eq!(rt; bucket.entry(2).is_none(), true);
    Ok(())
}
