//! What a place tells of an edit there, and what stands there: by hand, from the levels of the forms and the table of edits.
use crate::told::{doc_of, verb_of};
use ild_compile::compile;
use ild_data::PadKeys;
use ild_edges::MemStore;
use ild_path::{Place, locate};
use ild_schema::Accepted;
use ild_script::line_of;
use ild_view_doc::Doc;
use std::alloc::Global;
use std::test::Fail;

const SRC: &str =
    "type T struct { a Int b optional Int c optional Int } representation tuple type M {E:[Int]} type E enum { | Ann | Bob } \
        type H {String:[H]} representation advanced HAMT type L [H] \
        type N {String:Int} representation advanced HAMT type P {String:[Int]} representation advanced HAMT type I int";

/// A type, a block of it in hexadecimals, and a line; then whether the key fits (`f`), whether a hole is left (`h`), and how many of 96 levels are left
/// to the part that may come, or 0 where none may. The HAMT has one key `a`, whose value is the empty list.
const TOLD: [&str; 12] = [
    "T 8101 set . 0 => f- 96",
    "T 8101 set /c 0 => fh 95",
    "T 8101 ins /b 0 => f- 95",
    "T 83010203 del /b => fh 0",
    "M a163416e6e80 set /Bob 0 => f- 95",
    "M a163416e6e80 set /Cleo 0 => -- 0",
    "M a163416e6e80 ins /Ann/- 0 => f- 94",
    "H a36468616d7482582000000000000000000000000002000000000000000000000000000000000000008181824161806768617368416c67126a6275636b657453697a6503 set /a 0 => f- 91",
    "H a36468616d7482582000000000000000000000000002000000000000000000000000000000000000008181824161806768617368416c67126a6275636b657453697a6503 ins /b 0 => f- 91",
    "H a36468616d7482582000000000000000000000000002000000000000000000000000000000000000008181824161806768617368416c67126a6275636b657453697a6503 ins /a/- 0 => f- 90",
    "L 81a36468616d7482582000000000000000000000000002000000000000000000000000000000000000008181824161806768617368416c67126a6275636b657453697a6503 del /0/a => f- 0",
    "L 81a36468616d7482582000000000000000000000000002000000000000000000000000000000000000008181824161806768617368416c67126a6275636b657453697a6503 ins /0/a/- 0 => f- 89",
];

/// The same, and then the integer that stands at the place before, or `none` where nothing stands there yet. The HAMTs have one key `a`.
const SHOWN: [&str; 12] = [
    "I 07 set . 0 => view 7",
    "T 83010203 set /b 0 => view 2",
    "T 83010203 del /c => view 3",
    "T 8101 set /b 0 => view none",
    "M a163416e6e8105 del /Ann/0 => view 5",
    "M a163416e6e8105 ins /Ann/0 0 => view none",
    "M a163416e6e8105 ins /Ann/- 0 => view none",
    "N a36468616d7482582000000000000000000000000002000000000000000000000000000000000000008181824161056768617368416c67126a6275636b657453697a6503 set /a 0 => view 5",
    "N a36468616d7482582000000000000000000000000002000000000000000000000000000000000000008181824161056768617368416c67126a6275636b657453697a6503 del /a => view 5",
    "N a36468616d7482582000000000000000000000000002000000000000000000000000000000000000008181824161056768617368416c67126a6275636b657453697a6503 set /b 0 => view none",
    "P a36468616d748258200000000000000000000000000200000000000000000000000000000000000000818182416181056768617368416c67126a6275636b657453697a6503 set /a/0 0 => view 5",
    "P a36468616d748258200000000000000000000000000200000000000000000000000000000000000000818182416181056768617368416c67126a6275636b657453697a6503 ins /a/0 0 => view none",
];

fn flag(letter: u8, on: bool) -> u8 {
    if on { letter } else { b'-' }
}

/// Whether this integer stands at a place.
fn shows(place: &Place<'_>, want: &str) -> Option<bool> {
    match place.view() {
        Some(view) => Some(view.int()?.get() == i128::from(want.parse::<i64>().ok()?)),
        None => Some(want == "none"),
    }
}

/// Whether a place tells this.
fn tells(place: &Place<'_>, want: &str) -> Option<bool> {
    let (letters, levels) = want.split_once(' ')?;
    if letters == "view" {
        return shows(place, levels);
    }
    let told = [flag(b'f', place.key_fits()), flag(b'h', place.hole())];
    let room = levels.parse::<u32>().ok()?;
    let same = room == 0 || place.room()? == room;
    Some(same && letters.as_bytes() == told.as_slice() && !place.exhausted())
}

/// Whether the place of a line tells this.
fn is_told(alloc: Global, doc: &Doc<'_>, asked: &str, want: &str) -> Option<bool> {
    let line = line_of(alloc, asked.as_bytes()).ok()??;
    let verb = verb_of(line.verb)?;
    let mut store = MemStore::new(alloc, &[], &[]).ok()?;
    match locate(alloc, doc, &line.path, verb, &PadKeys, &mut store) {
        Ok(place) => tells(&place, want),
        Err(_) => None,
    }
}

fn is_so(alloc: Global, acc: &Accepted, row: &str) -> Option<bool> {
    let (given, want) = row.split_once(" => ")?;
    let (name, rest) = given.split_once(' ')?;
    let (block, asked) = rest.split_once(' ')?;
    let doc = doc_of(alloc, acc, name, block)?;
    is_told(alloc, &doc, asked, want)
}

fn all_so(alloc: Global, rows: &[&'static str]) -> Result<(), &'static str> {
    let acc = compile(alloc, SRC.as_bytes()).ok().ok_or("a schema")?;
    for row in rows {
        if is_so(alloc, &acc, row) != Some(true) {
            return Err(*row);
        }
    }
    Ok(())
}

#[test]
fn of_places(rt: HostRuntime) -> Result<(), Fail> {
    all_so(rt.alloc(), &TOLD)?;
    Ok(())
}

#[test]
fn of_parts_at_places(rt: HostRuntime) -> Result<(), Fail> {
    all_so(rt.alloc(), &SHOWN)?;
    Ok(())
}
