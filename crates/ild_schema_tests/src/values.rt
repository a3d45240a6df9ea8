//! Values in the lists that hold them: what was put in is there, in order, and nothing stands past the end.
use ild_data::Txt;
use ild_schema::{Val, ValFields, ValPairs, ValPart, Vals};
use std::alloc::Global;
use std::test::Fail;

/// A list of one text.
fn list_of(alloc: Global, text: &str) -> Option<Vals> {
    let mut vals = Vals::new(alloc);
    vals.push(Val::Text(Txt::of(alloc, text).ok()?)).ok()?;
    Some(vals)
}

/// Whether a value is a list of one text.
fn is_list_of(val: &Val, text: &str) -> bool {
    match val {
        Val::List(vals) => match vals.get(0) {
            Some(Val::Text(found)) => vals.len() == 1 && found.as_str() == text,
            _ => false,
        },
        _ => false,
    }
}

fn elements(alloc: Global) -> Option<bool> {
    let mut vals = Vals::new(alloc);
    vals.push(Val::Enum(1023)).ok()?;
    vals.push(Val::List(list_of(alloc, "é")?)).ok()?;
    let first = matches!(vals.get(0), Some(Val::Enum(1023)));
    Some(first && is_list_of(vals.get(1)?, "é") && vals.len() == 2 && vals.get(2).is_none())
}

fn entries(alloc: Global) -> Option<bool> {
    let mut pairs = ValPairs::new(alloc);
    let key = Txt::of(alloc, "a key").ok()?;
    pairs.push((key, Val::List(list_of(alloc, "")?))).ok()?;
    let (key, val) = pairs.get(0)?;
    Some(
        key.as_str() == "a key"
            && is_list_of(val, "")
            && pairs.len() == 1
            && pairs.get(1).is_none(),
    )
}

fn fields(alloc: Global) -> Option<bool> {
    let mut fields = ValFields::new(alloc);
    fields.push(None).ok()?;
    fields.push(Some(Val::List(list_of(alloc, "x")?))).ok()?;
    let first = matches!(fields.get(0), Some(None));
    match fields.get(1) {
        Some(Some(val)) => {
            Some(first && is_list_of(val, "x") && fields.len() == 2 && fields.get(2).is_none())
        }
        _ => None,
    }
}

fn member(alloc: Global) -> Option<bool> {
    let part = ValPart::new(alloc, Val::List(list_of(alloc, "y")?)).ok()?;
    Some(is_list_of(part.get(), "y"))
}

#[test]
fn values_in_their_lists(rt: HostRuntime) -> Result<(), Fail> {
    let alloc = rt.alloc();
    let lists = elements(alloc) == Some(true) && entries(alloc) == Some(true);
    let parts = fields(alloc) == Some(true) && member(alloc) == Some(true);
    assert!(rt; lists && parts);
    Ok(())
}
