//! What the table of edits allows at a view, which keys fit, how much room an edit leaves, and where it leaves a hole: told by hand.
use crate::seen::view_of;
use hex::decode;
use ild_cbor::check;
use ild_compile::compile;
use ild_path_room::{PartMotion, leaves_hole, room_left};
use ild_path_rules::{Refusal, key_fits, refusal_to_delete, slot_to_insert, slot_to_set};
use ild_schema::{Accepted, Slot};
use ild_script::line_of;
use ild_view::View;
use std::alloc::Global;
use std::test::Fail;

const SRC: &str =
    "type T struct { a Int b optional Int c optional Int } representation tuple type M {E:Int} type E \
     enum { | Ann | Bob } type L [Int] type U union { | Int \"i\" | L \"l\" } representation keyed type P \
     {String:L} representation listpairs type N struct { a nullable String b optional L }";

/// A type, a block of it and a segment; then the type of the part that may be set there, and of the one that may be inserted, with `?` where it may be
/// null, `-` where none may; whether the part may be deleted (`ok`), or why not; and whether the segment may be a key (`k`).
const ALLOWED: [&str; 16] = [
    "T 8101 a => Int - mismatch k",
    "T 8101 b => Int Int path k",
    "T 820102 b => Int - ok k",
    "T 8101 z => - - path k",
    "M a163416e6e01 Ann => Int - ok k",
    "M a163416e6e01 Bob => Int Int path k",
    "M a163416e6e01 Cleo => Int Int path -",
    "L 8105 0 => Int Int ok k",
    "L 8105 1 => - Int path k",
    "L 8105 - => - Int path k",
    "L 8105 01 => - - path k",
    "U a1616901 Int => Int - mismatch k",
    "U a1616901 L => L - path k",
    "U a1616901 l => - - path k",
    "N a16161f6 a => String? - mismatch k",
    "N a16161f6 b => L L path k",
];

/// A type, a block of it and a path; then how many of 96 levels are left to a part there.
const ROOMS: [&str; 4] = [
    "L 8105 get /0 => 95",
    "U a1616c8105 get /L/0 => 94",
    "P 8182617880 get /x/- => 93",
    "T 8101 get . => 96",
];

/// A type, a block of it and a segment; then whether a hole is left where a part comes there (`c`), and where it goes (`g`).
const HOLES: [&str; 3] = ["T 8101 c => c-", "T 8101 b => --", "T 83010203 b => -g"];

/// A letter, or a dash.
fn flag(letter: u8, on: bool) -> u8 {
    if on { letter } else { b'-' }
}

/// Whether a slot is of the type with a name, with `?` where it is nullable, or there is none.
fn is_slot(acc: &Accepted, slot: Option<Slot>, want: &str) -> Option<bool> {
    let Some(slot) = slot else {
        return Some(want == "-");
    };
    let (name, nullable) = match want.strip_suffix('?') {
        Some(name) => (name, true),
        None => (want, false),
    };
    let ty = acc.type_named(name)?;
    Some(slot.ty == ty && slot.nullable == nullable)
}

/// A word for whether a part may be deleted.
fn deleted(refusal: Option<Refusal>) -> &'static str {
    match refusal {
        None => "ok",
        Some(Refusal::Path) => "path",
        Some(Refusal::Mismatch) => "mismatch",
    }
}

/// Whether the table of edits allows this at a segment of a view.
pub(crate) fn is_allowed(
    alloc: Global,
    view: &View<'_>,
    segment: &str,
    want: &str,
) -> Option<bool> {
    let (set, rest) = want.split_once(' ')?;
    let (inserted, rest) = rest.split_once(' ')?;
    let (gone, key) = rest.split_once(' ')?;
    let acc = view.schema();
    let sets = is_slot(acc, slot_to_set(view, segment), set)?;
    let inserts = is_slot(acc, slot_to_insert(view, segment), inserted)?;
    let deletes = deleted(refusal_to_delete(view, segment)) == gone;
    let fits = key_fits(alloc, view, segment).ok()? == (key == "k");
    Some(sets && inserts && deletes && fits)
}

/// Whether an edit at a segment of a view leaves holes so.
pub(crate) fn leaves_holes(view: &View<'_>, segment: &str, want: &str) -> bool {
    let told = [
        flag(b'c', leaves_hole(view, segment, PartMotion::Comes)),
        flag(b'g', leaves_hole(view, segment, PartMotion::Goes)),
    ];
    want.as_bytes() == told.as_slice()
}

fn has_room(alloc: Global, view: &View<'_>, asked: &str, want: &str) -> Option<bool> {
    let line = line_of(alloc, asked.as_bytes()).ok()??;
    let room = room_left(alloc, view, &line.path, 96).ok()??;
    Some(want.parse::<u32>().ok()? == room)
}

/// Whether a row is so: by its length it tells of an edit, of a hole or of room.
fn is_so(alloc: Global, acc: &Accepted, row: &str) -> Option<bool> {
    let (given, want) = row.split_once(" => ")?;
    let (name, rest) = given.split_once(' ')?;
    let (block, asked) = rest.split_once(' ')?;
    let block = decode(alloc, block).ok()?;
    let view = view_of(alloc, acc, name, check(&block).ok()?)?;
    if asked.starts_with("get ") {
        return has_room(alloc, &view, asked, want);
    }
    if want.len() == 2 {
        return Some(leaves_holes(&view, asked, want));
    }
    is_allowed(alloc, &view, asked, want)
}

fn all_so(alloc: Global, rows: &[&'static str]) -> Result<(), &'static str> {
    let acc = compile(alloc, SRC.as_bytes()).ok().ok_or("a schema")?;
    for row in rows {
        if is_so(alloc, &acc, row) != Some(true) {
            return Err(*row);
        }
    }
    Ok(())
}

#[test]
fn of_the_table(rt: HostRuntime) -> Result<(), Fail> {
    all_so(rt.alloc(), &ALLOWED)?;
    Ok(())
}

#[test]
fn of_rooms_and_holes(rt: HostRuntime) -> Result<(), Fail> {
    all_so(rt.alloc(), &ROOMS)?;
    all_so(rt.alloc(), &HOLES)?;
    Ok(())
}
