//! Edits of parts of texts: joined parts, pairs, and texts behind prefixes, in one another. The blocks and refusals were worked out on plain values, by
//! the plain program of the conformance cases.
use crate::block_told::all_so;
use std::test::Fail;

const SRC: &str =
    "type J struct { a String b String } representation stringjoin { join \":\" } type JJ struct { j \
     J c String } representation stringjoin { join \"/\" } type Q {String:String} representation \
     stringpairs { innerDelim \"=\" entryDelim \"&\" } type QJ {String:J} representation stringpairs \
     { innerDelim \"=\" entryDelim \"&\" } type PS struct { a String (rename \"x\") b optional \
     String c String (implicit \"n\") } representation stringpairs { innerDelim \"=\" entryDelim \
     \"&\" } type SU union { | J \"j.\" | Name \"n.\" } representation stringprefix type Name string \
     type KU union { | SU string | Int int } representation kinded type W struct { q Q u KU j JJ } \
     type X struct { q SU z String } representation stringjoin { join \"::\" }";

const JOINS: [&str; 9] = [
    "J 63783a79 set /a 627a7a => 647a7a3a79",
    "J 63783a79 set /b 627a3a => delimiter",
    "JJ 65783a792f77 set /j/b 62c3a9 => 66783ac3a92f77",
    "JJ 65783a792f77 set /j/a 63312f32 => delimiter",
    "JJ 65783a792f77 set /j 613a => 633a2f77",
    "W a3616a65783a792f77617163613d316175656a2e783a79 set /j/j/b 646c6f6e67 => a3616a68783a6c6f6e672f77617163613d316175656a2e783a79",
    "X 686a2e783a793a3a77 set /q/J/b 62793a => delimiter",
    "X 686a2e783a793a3a77 set /q/J/a 60 => 676a2e3a793a3a77",
    "X 686a2e783a793a3a77 set /q/Name 62763a => delimiter",
];

const PAIRS: [&str; 13] = [
    "Q 67613d3126623d32 set /a 63393d39 => 69613d393d3926623d32",
    "Q 67613d3126623d32 set /c 6133 => 6b613d3126623d3226633d33",
    "Q 67613d3126623d32 ins /c= 6133 => delimiter",
    "Q 67613d3126623d32 set /b 6126 => delimiter",
    "Q 63613d31 del /a => 60",
    "QJ 65613d783a79 set /a/b 617a => 65613d783a7a",
    "QJ 65613d783a79 set /a/b 627a26 => delimiter",
    "QJ 65613d783a79 ins /b 623a3d => 6a613d783a7926623d3a3d",
    "PS 67783d3126623d32 del /b => 63783d31",
    "PS 63783d31 ins /b 6132 => 67783d3126623d32",
    "PS 67783d3126623d32 set /c 616d => 6b783d3126623d3226633d6d",
    "PS 67783d3126633d6d set /c 616e => 63783d31",
    "PS 67783d3126633d6d set /a 63782679 => delimiter",
];

const PREFIXES: [&str; 9] = [
    "SU 656a2e783a79 set /J/a 627a7a => 666a2e7a7a3a79",
    "SU 656a2e783a79 set /Name 646e2e6a2e => 666e2e6e2e6a2e",
    "SU 636e2e71 set /J 613a => 636a2e3a",
    "KU 636e2e71 set /SU/Name 6172 => 636e2e72",
    "KU 636e2e71 set /Int 07 => 07",
    "KU 05 set /SU 656a2e783a79 => 656a2e783a79",
    "W a3616a65783a792f77617163613d316175656a2e783a79 set /u/SU/J/b 627a7a => a3616a65783a792f77617163613d316175666a2e783a7a7a",
    "W a3616a65783a792f77617163613d316175656a2e783a79 set /u/SU/J/b 637a3a7a => delimiter",
    "W a3616a65783a792f77617163613d31617501 del /q/a => a3616a65783a792f77617160617501",
];

#[test]
fn of_joins(rt: HostRuntime) -> Result<(), Fail> {
    all_so(rt.alloc(), SRC, &JOINS)?;
    Ok(())
}

#[test]
fn of_pairs(rt: HostRuntime) -> Result<(), Fail> {
    all_so(rt.alloc(), SRC, &PAIRS)?;
    Ok(())
}

#[test]
fn of_prefixes(rt: HostRuntime) -> Result<(), Fail> {
    all_so(rt.alloc(), SRC, &PREFIXES)?;
    Ok(())
}
