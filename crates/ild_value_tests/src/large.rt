//! Copies and texts of values of many thousand parts. What is wanted is written part by part.
use crate::copied::is_so;
use crate::texts::text;
use ild_compile::compile;
use std::alloc::{AllocError, Global};
use std::test::Fail;

const SRC: &str =
    "type L [Int] type M {String:Int} type S struct { l L m M t String } type P {String:String} representation \
     stringpairs { innerDelim \"-\" entryDelim \"+\" } type OfP {String:P} representation stringpairs { innerDelim \"=\" \
     entryDelim \"&\" }";

/// The numbers of parts, each of five digits.
const FIRST: u32 = 10_000;

const LAST: u32 = 30_000;

/// Appends the numbers, each between a front and an end, with a text between two of them.
fn add_numbers(
    alloc: Global,
    text: &mut String,
    front: &str,
    end: &str,
    between: &str,
) -> Result<(), AllocError> {
    for n in FIRST..LAST {
        if n != FIRST {
            text.push_str(between)?;
        }
        let part = format!(in alloc; "{front}{n}{end}")?;
        text.push_str(part.as_str())?;
    }
    Ok(())
}

/// The JSON of a struct of all numbers as a list and as the keys of a map, and of a text of 100,000 letters.
fn json(alloc: Global) -> Result<String, AllocError> {
    let mut text = String::new(alloc);
    text.push_str("{\"l\":[")?;
    add_numbers(alloc, &mut text, "", "", ",")?;
    text.push_str("],\"m\":{")?;
    add_numbers(alloc, &mut text, "\"", "\":7", ",")?;
    text.push_str("},\"t\":\"")?;
    for _ in 0..10_000 {
        text.push_str("abcdefghij")?;
    }
    text.push_str("\"}")?;
    Ok(text)
}

#[test]
fn a_copy(rt: HostRuntime) -> Result<(), Fail> {
    let acc = compile(rt.alloc(), SRC.as_bytes()).ok().ok_or("a schema")?;
    let json = json(rt.alloc())?;
    let so = is_so(rt.alloc(), &acc, "S", json.as_str(), json.as_str())?;
    assert!(rt; so);
    Ok(())
}

#[test]
fn a_text(rt: HostRuntime) -> Result<(), Fail> {
    let acc = compile(rt.alloc(), SRC.as_bytes()).ok().ok_or("a schema")?;
    let mut json = String::new(rt.alloc());
    json.push_str("{")?;
    add_numbers(rt.alloc(), &mut json, "\"", "\":\"é\"", ",")?;
    json.push_str("}")?;
    let mut want = String::new(rt.alloc());
    add_numbers(rt.alloc(), &mut want, "", "-é", "+")?;
    let made = text(rt.alloc(), &acc, "OfP", json.as_str())?;
    assert!(rt; made.as_str() == want.as_str());
    Ok(())
}
