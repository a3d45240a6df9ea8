//! Views: items that are checked against the type of a slot, with the first piece that a walk of them refuses. The causes, their order
//! and the offsets are worked out by hand.
use crate::said::{number, word};
use hex::decode;
use ild_cbor::check;
use ild_compile::compile;
use ild_schema::{Accepted, Slot};
use ild_view::{View, ViewErr};
use std::alloc::Global;
use std::test::Fail;

const SRC: &str =
    "type S struct { a Int b optional String } type L [S] type K enum { | x | y } type M {K:Int} type P {String:Int} \
     representation listpairs type Q {String:String} representation stringpairs { innerDelim \"=\" entryDelim \
     \"&\" } type U union { | S \"s\" | Int \"i\" } representation keyed type H {String:Int} representation \
     advanced HAMT type I struct { n Int (implicit 0) } type T struct { a Int b optional Int c optional Int \
     } representation tuple type R struct { a Int b Int } representation listpairs type J struct { a K b \
     K } representation stringjoin { join \":\" } type A any";

/// A type, a block in hexadecimals and the room; then `ok`, or of the refusal the name of the type, the cause and the offset.
const ITEMS: [&str; 33] = [
    "S a1616101 1 => ok",
    "S a1616101 0 => S Depth 0",
    "I a0 96 => ok",
    "I a1616e00 96 => I Implicit 0",
    "T 8101 96 => ok",
    "T 80 96 => T Count 0",
    "A 81f6 96 => ok",
    "A f6 96 => A Kind 0",
    "A 8180 1 => A Depth 0",
    "Q 66613d3126623d 96 => ok",
    "Q 63613d26 96 => Q Delimiter 0",
    "Q 67613d3126613d32 96 => Q Repeat 0",
    "S a16161f6 96 => Int Kind 3",
    "T 8201f6 96 => Int Kind 2",
    "R 8282616101826162f6 96 => Int Kind 8",
    "J 63783a7a 96 => K Member 0",
    "L 82a1616101a1616102 2 => ok",
    "L 82a1616101a16161f5 96 => Int Kind 8",
    "L 82a0f5 96 => S Missing 1",
    "L 81a1616101 1 => S Depth 1",
    "M a1617801 96 => ok",
    "M a2617801617a01 96 => K Member 4",
    "M a26178f5617a01 96 => Int Kind 3",
    "P 828261610282616201 96 => ok",
    "P 828261610282616101 96 => P Repeat 0",
    "P 8282616102826162f4 96 => Int Kind 8",
    "U a16169f5 96 => Int Kind 3",
    "U a1617a05 96 => U Member 0",
    "H a36468616d748258200000000000000000000000000000000000000000000000000000000000000000806768617368416c67126a6275636b657453697a6503 5 => ok",
    "H a36468616d748258200000000000000000000000000000000000000000000000000000000000000000806768617368416c67126a6275636b657453697a6503 4 => H Depth 0",
    "H a36468616d748258200000000000000000000000000000000000000000000000000000000000000000806768617368416c6718226a6275636b657453697a6503 96 => H HashAlg 0",
    "H a36468616d74825820000000000000000000000000000000000000000000000004000000000000000081818243616263016768617368416c67126a6275636b657453697a6503 96 => ok",
    "H a36468616d74825820000000000000000000000000000000000000000000000004000000000000000081818243616263f56768617368416c67126a6275636b657453697a6503 96 => Int Kind 48",
];

/// How a view of a block in a room ends.
fn checked(
    alloc: Global,
    acc: &Accepted,
    name: &str,
    block: &str,
    room: u32,
) -> Option<Result<(), ViewErr>> {
    let slot = Slot {
        ty: number(acc, name)?,
        nullable: false,
    };
    if slot.ty.0 >= acc.types() {
        return None;
    }
    let block = decode(alloc, block).ok()?;
    match View::check(alloc, acc, slot, check(&block).ok()?, room) {
        Ok(_) => Some(Ok(())),
        Err(refused) => Some(Err(refused)),
    }
}

/// Whether a refusal is told so.
fn is_refused(acc: &Accepted, refused: ViewErr, want: &str) -> Option<bool> {
    let (name, rest) = want.split_once(' ')?;
    let (cause, place) = rest.split_once(' ')?;
    let place = place.parse::<u64>().ok()?;
    match refused {
        ViewErr::Shape { ty, why, at } => {
            Some(ty == number(acc, name)? && word(why) == cause && at as u64 == place)
        }
        ViewErr::Memory => None,
    }
}

fn is_so(alloc: Global, acc: &Accepted, row: &str) -> Option<bool> {
    let (given, want) = row.split_once(" => ")?;
    let (name, rest) = given.split_once(' ')?;
    let (block, room) = rest.split_once(' ')?;
    let room = room.parse::<u32>().ok()?;
    match checked(alloc, acc, name, block, room)? {
        Ok(()) => Some(want == "ok"),
        Err(refused) => is_refused(acc, refused, want),
    }
}

fn all_so(alloc: Global, rows: &[&'static str]) -> Result<(), &'static str> {
    let acc = compile(alloc, SRC.as_bytes()).ok().ok_or("a schema")?;
    for row in rows {
        if is_so(alloc, &acc, row) != Some(true) {
            return Err(*row);
        }
    }
    Ok(())
}

#[test]
fn of_items(rt: HostRuntime) -> Result<(), Fail> {
    all_so(rt.alloc(), &ITEMS)?;
    Ok(())
}
