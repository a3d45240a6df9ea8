//! Edits through HAMTs in one another, of which each put and each get fails in turn. What is told is that of tests/paths/rows.py.
use crate::forest::{COUNT, ROOT, SRC, store_without};
use crate::told::{doc_of, is_told, is_whole, told};
use ild_compile::compile;
use ild_data::PadKeys;
use ild_edges::MemStore;
use ild_schema::Accepted;
use ild_view_doc::Doc;
use std::alloc::Global;
use std::test::Fail;

/// An edit with its reply, how many blocks of the new value aren't of the old one, and how many of the old one's nodes aren't of the new one:
/// each of the former is put, and each of the latter is got.
type Tried = (&'static str, u64, u64);

const TRIED: [Tried; 5] = [
    (
        "set /1/Twigs/aa4/xx4/1/Twigs/mm4/nn4/0/Twigs/pp4/qq4/0/Leaf 8 => root bafyreievk4drx4ahq7kxsdgm55xscnywrdb42dpghhpzkxb24vyrlbkizm\n",
        13,
        12,
    ),
    (
        "del /1/Twigs/aa4/xx4/1/Twigs/mm4/nn4/0/Twigs/pp4/qq1 => root bafyreicj5wu7uoe7ldzqkwdcrs2s5ejuvheozyrasi5vwqysy4ksemukom\n",
        11,
        12,
    ),
    (
        "ins /1/Twigs/aa4/xx4/1/Twigs/mm4/nn4/0/Twigs/pp4/qq5 [] => root bafyreia4yf24yvehtxqwu2iza7clqyci27owmxaulb5dqnta7gld3mwfma\n",
        13,
        12,
    ),
    (
        "ins /1/Twigs/aa4/xx4/1/Twigs/mm4/nn4/- {\"Leaf\":3} => root bafyreiejtdnzxsksedi2bp6sskc72jo4d2tstyplgrr2wfntgsiagqtxlm\n",
        9,
        8,
    ),
    (
        "set /1/Twigs/aa4/xx4/1/Twigs/mm2 {\"vv1\":[],\"vv2\":[],\"vv3\":[],\"vv4\":[{\"Leaf\":5}]} => root bafyreihf2fkmxilwjx2wtzki5mxqg4z27f6ziln4kzkfwyvckbneuhckiq\n",
        9,
        6,
    ),
];

/// Whether an edit is told `no 12 store` and leaves the document and all beneath it, or is told as in its row; `None` where it is neither.
fn is_refused(alloc: Global, doc: &mut Doc<'_>, row: &str, store: &mut MemStore) -> Option<bool> {
    let (asked, wanted) = row.split_once(" => ")?;
    let root = doc.root();
    let text = told(alloc, doc, asked, &PadKeys, store)?;
    if text.as_slice() == wanted.as_bytes() {
        return Some(false);
    }
    if text.as_slice() == b"no 12 store\n".as_slice()
        && doc.root() == root
        && is_whole(alloc, doc, store)
    {
        return Some(true);
    }
    None
}

/// Whether an edit of which the calls with these numbers fail is refused so, and then done over the same store.
fn is_done_again(
    alloc: Global,
    acc: &Accepted,
    row: &str,
    gets: &[u64],
    puts: &[u64],
) -> Option<bool> {
    let mut store = store_without(alloc, COUNT, gets, puts)?;
    let mut doc = doc_of(alloc, acc, "Forest", ROOT)?;
    if !is_refused(alloc, &mut doc, row, &mut store)? {
        return Some(false);
    }
    if is_told(alloc, &mut doc, row, &PadKeys, &mut store)? && is_whole(alloc, &doc, &mut store) {
        return Some(true);
    }
    None
}

/// More calls than any edit here has.
const MANY: u64 = 100;

/// How many puts an edit has, each of which is let fail in turn.
fn puts_of(alloc: Global, acc: &Accepted, row: &str) -> Option<u64> {
    for before in 0..MANY {
        let number = [before.saturating_add(1)];
        if !is_done_again(alloc, acc, row, &[], &number)? {
            return Some(before);
        }
    }
    None
}

/// The same of its gets.
fn gets_of(alloc: Global, acc: &Accepted, row: &str) -> Option<u64> {
    for before in 0..MANY {
        let number = [before.saturating_add(1)];
        if !is_done_again(alloc, acc, row, &number, &[])? {
            return Some(before);
        }
    }
    None
}

fn all_refused(alloc: Global) -> Result<(), &'static str> {
    let acc = compile(alloc, SRC.as_bytes()).ok().ok_or("a schema")?;
    for (row, new, old) in &TRIED {
        let puts = puts_of(alloc, &acc, row).ok_or(*row)?;
        let gets = gets_of(alloc, &acc, row).ok_or(*row)?;
        if puts < *new || gets < *old {
            return Err(*row);
        }
    }
    Ok(())
}

#[test]
fn each_call_fails_in_turn(rt: HostRuntime) -> Result<(), Fail> {
    all_refused(rt.alloc())?;
    Ok(())
}
