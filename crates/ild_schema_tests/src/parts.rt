//! The parts of types by their texts, and the ends of copies.
use ild_compile::compile;
use ild_schema::Accepted;
use std::alloc::Global;
use std::test::Fail;

const SRC: &str =
    "type S struct { a Int b Int (rename \"x\") long optional String (rename \"é\") } type U union { | Int \
     \"i\" | String \"s\" } representation keyed type V union { | S \"one\" | T \"two\" } representation \
     envelope { discriminantKey \"tag\" contentKey \"of\" } type W union { | T \"1\" | S \"\" } representation \
     inline { discriminantKey \"tag\" } type T struct { y Int } type E enum { | Yes | No (\"n\") } type N \
     enum { | One (\"1\") | Less (\"-1\") } representation int type K union { | Int int | String string | \
     &S link } representation kinded type C = S type L [S]";

/// A type, a text, and the numbers of the part that has it as its name and of the one that stands under it in a block; a dash for none.
const FOUND: [&str; 27] = [
    "S a 00",
    "S b 1-",
    "S x -1",
    "S long 2-",
    "S é -2",
    "S  --",
    "U Int 0-",
    "U i -0",
    "U s -1",
    "U si --",
    "V T 1-",
    "V two -1",
    "V tag --",
    "W  -1",
    "W 1 -0",
    "W S 1-",
    "E Yes 00",
    "E No 1-",
    "E n -1",
    "N One 0-",
    "N -1 -1",
    "K &S 2-",
    "K int --",
    "C a --",
    "L a --",
    "Int a --",
    "T y 00",
];

fn digit(found: Option<usize>) -> u8 {
    match found {
        Some(number) => b'0' + (number % 10) as u8,
        None => b'-',
    }
}

fn is_found(acc: &Accepted, row: &str) -> Option<bool> {
    let (name, rest) = row.split_once(' ')?;
    let (text, want) = rest.split_once(' ')?;
    let ty = acc.type_named(name)?;
    if ty.0 >= acc.types() {
        return None;
    }
    let told = [
        digit(acc.part_named(ty, text)),
        digit(acc.part_spelled(ty, text)),
    ];
    Some(want.as_bytes() == told.as_slice())
}

/// Whether a copy leads to its type, and a type to itself.
fn are_ends(acc: &Accepted) -> Option<bool> {
    let copy = acc.type_named("C")?;
    let ty = acc.type_named("S")?;
    if copy.0 >= acc.types() || ty.0 >= acc.types() {
        return None;
    }
    Some(acc.base(copy) == ty && acc.base(ty) == ty)
}

fn all_found(alloc: Global) -> Result<(), &'static str> {
    let acc = compile(alloc, SRC.as_bytes()).ok().ok_or("a schema")?;
    for row in &FOUND {
        if is_found(&acc, row) != Some(true) {
            return Err(*row);
        }
    }
    if are_ends(&acc) != Some(true) {
        return Err("the ends of copies");
    }
    Ok(())
}

#[test]
fn parts_by_their_texts(rt: HostRuntime) -> Result<(), Fail> {
    all_found(rt.alloc())?;
    Ok(())
}
