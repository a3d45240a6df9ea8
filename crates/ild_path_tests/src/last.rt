//! Blocks that were worked out by hand by the rules of DAG-CBOR and RFC 8949, each before and after one change of the item that is
//! sought in it.
use ild_cbor::{Node, check};
use ild_path_apply::{applied, is_whole};
use ild_path_last::LastChange;
use ild_path_steps::PartSteps;
use std::alloc::Global;
use std::process::Abort;
use std::test::Fail;

/// A block, a change of its root, where the new part is 5 and what the holder becomes is 6, and the block after it.
type Row = (&'static [u8], LastChange<'static>, &'static [u8]);

const LISTS: [Row; 6] = [
    (
        b"\x82\x01\x02",
        LastChange::InsertItem(1),
        b"\x83\x01\x05\x02",
    ),
    (b"\x81\x01", LastChange::InsertItem(9), b"\x82\x01\x05"),
    (b"\xa0", LastChange::InsertItem(0), b"\xa0"),
    (b"\x82\x01\x02", LastChange::RemoveItem(0), b"\x81\x02"),
    (b"\x82\x01\x02", LastChange::RemoveItem(2), b"\x82\x01\x02"),
    (b"\xa1aa\x01", LastChange::RemoveItem(0), b"\xa1aa\x01"),
];

const PAIRS: [Row; 5] = [
    (
        b"\x81\x82aa\x01",
        LastChange::InsertPair(0, "b"),
        b"\x82\x82ab\x05\x82aa\x01",
    ),
    (b"\x80", LastChange::InsertPair(3, "bc"), b"\x81\x82bbc\x05"),
    (b"\x05", LastChange::InsertPair(0, "b"), b"\x05"),
    (
        b"\x82\x82aa\x01\x82ab\x02",
        LastChange::Replace(PartSteps::Pair(1)),
        b"\x82\x82aa\x01\x82ab\x05",
    ),
    (
        b"\x81\x81aa",
        LastChange::Replace(PartSteps::Pair(0)),
        b"\x81\x81aa",
    ),
];

const MAPS: [Row; 6] = [
    (
        b"\xa1ab\x01",
        LastChange::InsertEntry("a"),
        b"\xa2aa\x05ab\x01",
    ),
    (b"\xa1aa\x01", LastChange::InsertEntry("a"), b"\xa1aa\x05"),
    (b"\x80", LastChange::InsertEntry("a"), b"\x80"),
    (
        b"\xa2aa\x01ab\x02",
        LastChange::RemoveEntry("a"),
        b"\xa1ab\x02",
    ),
    (b"\xa1aa\x01", LastChange::RemoveEntry("b"), b"\xa1aa\x01"),
    (
        b"\xa1aa\x01",
        LastChange::Replace(PartSteps::Entry("a")),
        b"\xa1aa\x05",
    ),
];

const WHOLES: [Row; 5] = [
    (b"\x80", LastChange::Nothing, b"\x80"),
    (b"\x80", LastChange::Whole, b"\x06"),
    (b"\x80", LastChange::Replace(PartSteps::Whole), b"\x06"),
    (
        b"\xa0",
        LastChange::Replace(PartSteps::Beside("k")),
        b"\x06",
    ),
    (b"\x80", LastChange::Replace(PartSteps::Same), b"\x05"),
];

/// The item of what the holder becomes, where a change wants it.
fn whole_of<'b>(change: &LastChange<'_>, whole: Node<'b>) -> Option<Node<'b>> {
    if is_whole(change) { Some(whole) } else { None }
}

fn is_made(alloc: Global, node: &Node<'_>, change: &LastChange<'_>, want: &[u8]) -> Option<bool> {
    let new = check(b"\x05").ok()?;
    let whole = whole_of(change, check(b"\x06").ok()?);
    let block = applied(alloc, node, change, Some(new), whole).ok()?;
    Some(block.as_slice() == want)
}

fn is_so(alloc: Global, row: &Row) -> Option<bool> {
    let (block, change, want) = row;
    let root = check(block).ok()?;
    is_made(alloc, &root, change, want)
}

fn all_so(rt: &impl Abort, alloc: Global, table: &[Row]) -> Result<(), Fail> {
    for row in table {
        assert!(rt; is_so(alloc, row).ok_or("a block")?, "{:?}", row.0);
    }
    Ok(())
}

#[test]
fn lists(rt: HostRuntime) -> Result<(), Fail> {
    all_so(&rt, rt.alloc(), &LISTS)
}

#[test]
fn pairs(rt: HostRuntime) -> Result<(), Fail> {
    all_so(&rt, rt.alloc(), &PAIRS)
}

#[test]
fn maps(rt: HostRuntime) -> Result<(), Fail> {
    all_so(&rt, rt.alloc(), &MAPS)
}

#[test]
fn wholes(rt: HostRuntime) -> Result<(), Fail> {
    all_so(&rt, rt.alloc(), &WHOLES)
}

/// The item of an entry of a list, in [1, {"a": []}, 2].
fn inner<'b>(block: &'b [u8]) -> Option<Node<'b>> {
    check(block).ok()?.item(1)?.entry("a")
}

#[test]
fn within(rt: HostRuntime) -> Result<(), Fail> {
    let list = inner(b"\x83\x01\xa1aa\x80\x02").ok_or("a list")?;
    let made = is_made(
        rt.alloc(),
        &list,
        &LastChange::InsertPair(0, "k"),
        b"\x83\x01\xa1aa\x81\x82ak\x05\x02",
    );
    assert!(rt; made.ok_or("a block")?);
    Ok(())
}
