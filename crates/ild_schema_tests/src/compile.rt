//! The tables of schemas, and how many types they may have. All places were counted in the texts.
use ild_compile::{CompileErr, Flaw, SchemaFault, table_of};
use std::alloc::{AllocError, Global};
use std::fmt::Write;
use std::process::Abort;
use std::test::Fail;

mod said;

use said::rows;

/// The number of a type, a schema, and the rows of its table from that number on.
type Table = (u32, &'static str, &'static str);

/// The table of no declared types, which is the prelude's.
const PRELUDE: Table = (
    0,
    "",
    "0=0 Any@0 any
1=1 Bool@0 bool
2=2 Bytes@0 bytes
3=3 Int@0 int
4=4 Link@0 link 0
5=5 List@0 list @0 nullable 0
6=6 Map@0 map @0 7 @0 nullable 0
7=7 String@0 string
",
);

const CLUB: Table = (
    8,
    "# members of a club\ntype Club struct {\n  name String\n  users Users\n  motto optional String\n}\ntype \
     Users {String:User} representation advanced HAMT\ntype User struct {\n  mail String\n  role Role\n  \
     age nullable Int\n  nick optional String\n  avatar optional Bytes\n  contact Contact\n}\ntype Role enum \
     {\n  | Admin (\"a\")\n  | Guest (\"g\")\n}\ntype Contact union {\n  | Phone \"phone\"\n  | Room \"room\"\n\
     } representation keyed\ntype Phone string\ntype Room struct {\n  floor Int\n  door Int\n} representation \
     tuple\n",
    "8=8 Club@25 struct name@41 7 users@55 9 optional motto@69 7
9=9 Users@98 map @105 7 @112 10
10=10 User@152 struct mail@168 7 role@182 11 age@194 nullable 3 optional nick@213 7 optional avatar@236 2 contact@260 12
11=11 Role@283 enum Admin@299 Guest@315
12=12 Contact@334 union Phone@354 13 Room@372 14
13=13 Phone@412 string
14=14 Room@430 struct floor@446 3 door@458 3
",
);

/// Inline types inside one another, and a type behind them; links of members, and copies of copies.
const INLINE: [Table; 4] = [
    (
        8,
        "type A {String:[&B]} type B [nullable {String:Int}]",
        "8=8 A@5 map @8 7 @15 9
9=9 @15 list @16 10
10=10 @16 link 11
11=11 B@26 list @29 nullable 12
12=12 @38 map @39 7 @46 3
",
    ),
    (
        8,
        "type S struct { a [Int] b &S c optional {String:[Int]} d optional nullable S } type T bool",
        "8=8 S@5 struct a@16 9 b@24 10 optional c@29 11 optional d@55 nullable 8
9=9 @18 list @19 3
10=10 @26 link 8
11=11 @40 map @41 7 @48 12
12=12 @48 list @49 3
13=13 T@84 bool
",
    ),
    (
        8,
        "type U union { | &B \"b\" | B \"c\" | &Any \"d\" } representation keyed type B unit representation null",
        "8=8 U@5 union &B@17 9 B@26 11 &Any@34 10
9=9 &B@17 link 11
10=10 &Any@34 link 0
11=11 B@71 unit
",
    ),
    (
        8,
        "type A = B type B = C type C = Int type D [A] type E = D",
        "8=3 A@5 copy 9
9=3 B@16 copy 10
10=3 C@27 copy 3
11=11 D@40 list @43 8
12=11 E@51 copy 11
",
    ),
];

fn try_table(rt: &impl Abort, alloc: Global, table: &Table) -> Result<(), Fail> {
    let (first, src, want) = *table;
    let schema = table_of(alloc, src.as_bytes()).ok().ok_or("no table")?;
    let found = rows(alloc, &schema, first)?;
    assert_eq!(rt; found.as_str(), want, "in {src}");
    Ok(())
}

#[test]
fn rows_of_the_prelude(rt: HostRuntime) -> Result<(), Fail> {
    try_table(&rt, rt.alloc(), &PRELUDE)
}

#[test]
fn rows_of_the_club(rt: HostRuntime) -> Result<(), Fail> {
    try_table(&rt, rt.alloc(), &CLUB)
}

#[test]
fn rows_of_inline_types(rt: HostRuntime) -> Result<(), Fail> {
    for table in &INLINE {
        try_table(&rt, rt.alloc(), table)?;
    }
    Ok(())
}

/// So many declarations of a body, with names of their own.
fn declared(alloc: Global, body: &str, count: u32) -> Result<String, AllocError> {
    let mut text = String::new(alloc);
    for n in 0..count {
        write!(text, "type T{n} {body} ")?;
    }
    Ok(text)
}

/// A body, how many types have it, a type behind them, and where in this one the fault of too many stands, if it is one too many.
type Count = (&'static str, u32, &'static str, Option<u8>);

const COUNTS: [Count; 4] = [
    ("bool", 65534, "type Z bool", None),
    ("bool", 65535, "type T0 bool", Some(5)),
    ("[&Int]", 32767, "type Z [Int]", None),
    ("[&Int]", 32767, "type Z [&Int]", Some(8)),
];

/// The number of types in the table of a schema, or why there is none.
fn types(alloc: Global, src: &str) -> Result<u32, CompileErr> {
    match table_of(alloc, src.as_bytes()) {
        Ok(schema) => Ok(schema.types()),
        Err(why) => Err(why),
    }
}

/// So many types, and the last, are the most that a table has, or are told to be too many.
fn try_count(rt: &impl Abort, alloc: Global, row: &Count) -> Result<(), Fail> {
    let (body, count, last, beyond) = *row;
    let mut src = declared(alloc, body, count)?;
    let want = match beyond {
        None => Ok(65543),
        Some(at) => Err(CompileErr::Fault(SchemaFault {
            flaw: Flaw::Many,
            at: src.len() + usize::from(at),
        })),
    };
    src.push_str(last)?;
    assert_eq!(rt; types(alloc, src.as_str()), want, "{body} and {last}");
    Ok(())
}

#[test]
fn types_up_to_the_limit(rt: HostRuntime) -> Result<(), Fail> {
    for row in &COUNTS {
        try_count(&rt, rt.alloc(), row)?;
    }
    Ok(())
}
