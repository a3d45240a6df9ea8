//! Enums and units: each form, with the blocks of its members and one for each cause of a refusal.
use crate::said::all_said;
use std::test::Fail;

const SRC: &str =
    "type E enum { | Yes | No (\"n\") } type N enum { | No (\"0\") | Yes (\"1\") | Low (\"-9223372036854775808\") | High (\"18446744073709551615\") } representation int type Nil unit representation null type T unit representation true type F unit representation false type O unit representation emptymap type Again = N";

/// What is said of an enum is the number of the member.
const ENUMS: [&str; 24] = [
    "E 63596573 => 0",
    "E 616e => 1",
    "E 624e6f => Member",
    "E 00 => Kind",
    "N 00 => 0",
    "N 01 => 1",
    "N 02 => Member",
    "N 20 => Member",
    "N 3b7fffffffffffffff => 2",
    "N 1bffffffffffffffff => 3",
    "N 6130 => Kind",
    "Again 01 => 1",
    "Again 1818 => Member",
    "Nil f6 => 0",
    "Nil f4 => Kind",
    "T f5 => 0",
    "T f4 => Member",
    "T 01 => Kind",
    "F f4 => 0",
    "F f5 => Member",
    "F f6 => Kind",
    "O a0 => 0",
    "O a1616101 => Count",
    "O 80 => Kind",
];

#[test]
fn enums_and_units(rt: HostRuntime) -> Result<(), Fail> {
    all_said(rt.alloc(), SRC, &ENUMS)?;
    Ok(())
}
