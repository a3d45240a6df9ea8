//! Large schemas that are compared: a thousand types in one another, and types of a thousand fields or members. A table of schemas has eight types
//! of its prelude in front.
use crate::compared::{compared, schema, told};
use ild_compat::Rule;
use std::alloc::{AllocError, Global};
use std::test::Fail;

/// How many types, fields or members there are.
const MANY: u32 = 1_000;

/// Lists of lists, down to a type with this text, each named by a letter and its number.
fn lists(alloc: Global, last: &str) -> Result<String, AllocError> {
    let mut text = String::from_str(alloc, "type T [T1]")?;
    for n in 1..MANY {
        let list = format!(in alloc; " type T{n} [T{}]", n.wrapping_add(1))?;
        text.push_str(list.as_str())?;
    }
    let end = format!(in alloc; " type T{MANY} {last}")?;
    text.push_str(end.as_str())?;
    Ok(text)
}

/// A struct of many fields, and one more.
fn fields(alloc: Global, last: &str) -> Result<String, AllocError> {
    let mut text = String::from_str(alloc, "type T struct {")?;
    for n in 0..MANY {
        let field = format!(in alloc; "f{n} Int ")?;
        text.push_str(field.as_str())?;
    }
    text.push_str(last)?;
    text.push_str("}")?;
    Ok(text)
}

/// An enum of so many members.
fn members(alloc: Global, count: u32) -> Result<String, AllocError> {
    let mut text = String::from_str(alloc, "type T enum {")?;
    for n in 0..count {
        let member = format!(in alloc; "| M{n} ")?;
        text.push_str(member.as_str())?;
    }
    text.push_str("}")?;
    Ok(text)
}

/// What is told of two schemas.
fn differ(alloc: Global, first: &str, next: &str) -> Result<Option<(Rule, u32, u32)>, Fail> {
    let (earlier, later) = (schema(alloc, first)?, schema(alloc, next)?);
    Ok(told(compared(alloc, &earlier, &later)?))
}

#[test]
fn many_types_are_compared(rt: HostRuntime) -> Result<(), Fail> {
    let alloc = rt.alloc();
    let (ints, texts) = (lists(alloc, "int")?, lists(alloc, "string")?);
    assert_eq!(rt; differ(alloc, ints.as_str(), ints.as_str())?, None);
    let form = Some((Rule::Form, 1_008, 1_008));
    assert_eq!(rt; differ(alloc, ints.as_str(), texts.as_str())?, form);
    assert_eq!(rt; differ(alloc, ints.as_str(), "type T any")?, None);
    Ok(())
}

#[test]
fn many_fields_are_compared(rt: HostRuntime) -> Result<(), Fail> {
    let alloc = rt.alloc();
    let (some, more) = (fields(alloc, "")?, fields(alloc, "x optional Int")?);
    assert_eq!(rt; differ(alloc, some.as_str(), more.as_str())?, None);
    let lost = Some((Rule::Field, 8, 8));
    assert_eq!(rt; differ(alloc, more.as_str(), some.as_str())?, lost);
    let asked = fields(alloc, "x Int")?;
    let extra = Some((Rule::Extra, 8, 8));
    assert_eq!(rt; differ(alloc, some.as_str(), asked.as_str())?, extra);
    Ok(())
}

#[test]
fn many_members_are_compared(rt: HostRuntime) -> Result<(), Fail> {
    let alloc = rt.alloc();
    let (some, more) = (members(alloc, MANY)?, members(alloc, 1_001)?);
    assert_eq!(rt; differ(alloc, some.as_str(), more.as_str())?, None);
    let lost = Some((Rule::Member, 8, 8));
    assert_eq!(rt; differ(alloc, more.as_str(), some.as_str())?, lost);
    Ok(())
}
