//! Values of many thousand parts that are opened, loaded and compared: a list in one block, and HAMTs. What is wanted is written part by part.
use crate::compared::{HAMT, told_over};
use crate::hamts::root_map;
use ild_bulk::from_entries;
use ild_compile::compile;
use ild_data::{HamtShape, PadKeys, block_id};
use ild_edges::MemStore;
use ild_hamt_samples::push;
use ild_json::print;
use ild_node::Rows;
use ild_open::{BlockAt, load, open_root, open_value};
use ild_schema::{Accepted, Slot, TypeNo, Val};
use ild_value_shown::shown;
use ild_view_doc::Doc;
use std::alloc::{AllocError, Global};
use std::test::Fail;

const SRC: &[u8] = b"type L [Int] type H {String:Int} representation advanced HAMT";

/// The numbers of parts, each of five digits, from this one up to another: in a list, and as the keys of a HAMT.
const FIRST: u16 = 10_000;

const LISTED: u16 = 30_000;

const KEYS: u16 = 14_000;

/// The block of the list of all numbers.
fn list(alloc: Global) -> Result<Vec<u8>, AllocError> {
    let mut block = b"\x99\x4e\x20".to_vec(alloc)?;
    for n in FIRST..LISTED {
        block.push(0x19)?;
        block.extend_from_slice(&n.to_be_bytes())?;
    }
    Ok(block)
}

/// The root block of the HAMT of all numbers as keys, each with 7, but the last one with another number. Its nodes are put into a store.
fn hamt(alloc: Global, last: u8, store: &mut MemStore) -> Result<Vec<u8>, Fail> {
    let mut rows = Rows::new(alloc);
    for n in FIRST..KEYS {
        let key = format!(in alloc; "{n}")?;
        let value = if n == 13_999 { last } else { 7 };
        push(alloc, &mut rows, key.as_str(), &[value])?;
    }
    let node = from_entries(alloc, HamtShape::usual(), &rows, &PadKeys, store)
        .ok()
        .ok_or("a root node")?;
    Ok(root_map(alloc, node.as_slice()).ok_or("a root map")?)
}

/// The numbers up to one, each between two of these texts, with commas between them, and between the first and the last of these texts.
fn written(alloc: Global, last: u16, marks: &[&str; 4]) -> Result<String, AllocError> {
    let [open, front, end, close] = *marks;
    let mut text = String::new(alloc);
    text.push_str(open)?;
    for n in FIRST..last {
        if n != FIRST {
            text.push_str(",")?;
        }
        let part = format!(in alloc; "{front}{n}{end}")?;
        text.push_str(part.as_str())?;
    }
    text.push_str(close)?;
    Ok(text)
}

/// Whether a value of a type is shown so.
fn is_shown(alloc: Global, acc: &Accepted, ty: TypeNo, val: &Val, json: &str) -> Option<bool> {
    if ty.0 >= acc.types() {
        return None;
    }
    let slot = Slot {
        ty,
        nullable: false,
    };
    let tree = shown(alloc, acc, slot, val).ok()?;
    Some(print(alloc, &tree).ok()?.as_str() == json)
}

/// The value of a document.
fn loaded(alloc: Global, doc: &Doc<'_>, store: &mut MemStore) -> Option<Val> {
    let view = doc.view();
    let at = BlockAt::named(doc.block(), doc.root());
    load(alloc, &view, at, 96, &PadKeys, store).ok()
}

/// Whether a root block of a type is opened, and its value is shown so where it is loaded, and where it is kept. The block is added to
/// the store.
fn is_read(
    alloc: Global,
    name: &str,
    root: &[u8],
    json: &str,
    store: &mut MemStore,
) -> Option<bool> {
    let acc = compile(alloc, SRC).ok()?;
    let ty = acc.type_named(name)?;
    if ty.0 >= acc.types() {
        return None;
    }
    store.add(root).ok()?;
    let doc = open_root(alloc, &acc, ty, &block_id(root), &PadKeys, store).ok()?;
    let opened = open_value(alloc, &acc, ty, &block_id(root), &PadKeys, store).ok()?;
    let val = loaded(alloc, &doc, store)?;
    let both = is_shown(alloc, &acc, ty, &val, json)?
        && is_shown(alloc, &acc, ty, &opened.1, json)?;
    Some(both && doc.block() == root)
}

#[test]
fn of_a_list(rt: HostRuntime) -> Result<(), Fail> {
    let alloc = rt.alloc();
    let mut store = MemStore::new(alloc, &[], &[])?;
    let json = written(alloc, LISTED, &["[", "", "", "]"])?;
    let read = is_read(alloc, "L", &list(alloc)?, json.as_str(), &mut store);
    assert!(rt; read == Some(true));
    Ok(())
}

#[test]
fn of_a_hamt(rt: HostRuntime) -> Result<(), Fail> {
    let alloc = rt.alloc();
    let mut store = MemStore::new(alloc, &[], &[])?;
    let root = hamt(alloc, 7, &mut store)?;
    let json = written(alloc, KEYS, &["{", "\"", "\":7", "}"])?;
    let read = is_read(alloc, "H", &root, json.as_str(), &mut store);
    assert!(rt; read == Some(true));
    Ok(())
}

#[test]
fn of_two_hamts(rt: HostRuntime) -> Result<(), Fail> {
    let alloc = rt.alloc();
    let mut store = MemStore::new(alloc, &[], &[])?;
    let one = hamt(alloc, 7, &mut store)?;
    let mut beside = MemStore::new(alloc, &[], &[])?;
    let other = hamt(alloc, 8, &mut beside)?;
    let told = told_over(alloc, HAMT, &one, &mut store, &other, &mut beside)?;
    assert_eq!(rt; told, "other");
    let told = told_over(alloc, HAMT, &one, &mut store, &one, &mut beside)?;
    assert_eq!(rt; told, "block");
    let mut again = MemStore::new(alloc, &[], &[])?;
    hamt(alloc, 7, &mut again)?;
    let told = told_over(alloc, HAMT, &one, &mut store, &one, &mut again)?;
    assert_eq!(rt; told, "same");
    Ok(())
}
