//! Texts of many thousand parts or pairs, of which one is changed. What is wanted is written part by part.
use ild_data::Txt;
use ild_path_text::{PairChange, change_pair, set_part};
use std::alloc::{AllocError, Global};
use std::test::Fail;

const MANY: usize = 20_000;

/// The first, one in the midst, and the last.
const PLACES: [usize; 3] = [0, 12_345, MANY - 1];

/// Appends a part behind others.
fn add_part(text: &mut String, part: &str) -> Result<(), AllocError> {
    if !text.is_empty() {
        text.push_str(", ")?;
    }
    text.push_str(part)
}

/// Appends the numbers from one on up to another.
fn add_parts(alloc: Global, text: &mut String, from: usize, to: usize) -> Result<(), AllocError> {
    for i in from..to {
        let number = format!(in alloc; "{i}")?;
        add_part(text, number.as_str())?;
    }
    Ok(())
}

/// The text of the numbers, one of which is another part.
fn parts(alloc: Global, place: usize, part: &str) -> Result<String, AllocError> {
    let mut text = String::new(alloc);
    add_parts(alloc, &mut text, 0, place)?;
    add_part(&mut text, part)?;
    add_parts(alloc, &mut text, place.saturating_add(1), MANY)?;
    Ok(text)
}

/// Appends a pair behind others.
fn add_pair(text: &mut String, key: &str, value: &str) -> Result<(), AllocError> {
    if !text.is_empty() {
        text.push_str("&")?;
    }
    text.push_str(key)?;
    text.push_str("=")?;
    text.push_str(value)
}

/// Appends the pairs of numbers from one on up to another, each with itself.
fn add_pairs(alloc: Global, text: &mut String, from: usize, to: usize) -> Result<(), AllocError> {
    for i in from..to {
        let number = format!(in alloc; "{i}")?;
        add_pair(text, number.as_str(), number.as_str())?;
    }
    Ok(())
}

/// The text of the pairs of the numbers up to one, then of another pair, if one is given, and of the pairs from a number on.
fn pairs(
    alloc: Global,
    front: usize,
    pair: Option<(&str, &str)>,
    behind: usize,
) -> Result<String, AllocError> {
    let mut text = String::new(alloc);
    add_pairs(alloc, &mut text, 0, front)?;
    if let Some((key, value)) = pair {
        add_pair(&mut text, key, value)?;
    }
    add_pairs(alloc, &mut text, behind, MANY)?;
    Ok(text)
}

/// Whether there is a text, and it is this one.
fn is_text(made: Option<Txt>, want: &str) -> bool {
    match made {
        Some(text) => text.as_str() == want,
        None => false,
    }
}

/// Whether a change of the pairs of all numbers makes this text.
fn makes(alloc: Global, change: PairChange<'_>, want: &str) -> Result<bool, AllocError> {
    let text = pairs(alloc, 0, None, 0)?;
    let made = change_pair(alloc, text.as_str(), "=", "&", change)?;
    Ok(is_text(made, want))
}

/// Whether a change of the pairs of all numbers is refused.
fn is_refused(alloc: Global, change: PairChange<'_>) -> Result<bool, AllocError> {
    let text = pairs(alloc, 0, None, 0)?;
    Ok(change_pair(alloc, text.as_str(), "=", "&", change)?.is_none())
}

#[test]
fn of_parts(rt: HostRuntime) -> Result<(), Fail> {
    let alloc = rt.alloc();
    let text = parts(alloc, 0, "0")?;
    for place in &PLACES {
        let made = set_part(alloc, text.as_str(), ", ", MANY, *place, "a part")?;
        let want = parts(alloc, *place, "a part")?;
        assert!(rt; is_text(made, want.as_str()), "{place}");
    }
    let made = set_part(alloc, text.as_str(), ", ", MANY, 12_345, "two, parts")?;
    assert!(rt; made.is_none());
    Ok(())
}

#[test]
fn of_pairs_that_are_set(rt: HostRuntime) -> Result<(), Fail> {
    let alloc = rt.alloc();
    for place in &PLACES {
        let key = format!(in alloc; "{place}")?;
        let pair = Some((key.as_str(), "a=b"));
        let want = pairs(alloc, *place, pair, place.saturating_add(1))?;
        let change = PairChange::Set {
            place: *place,
            new: "a=b",
        };
        assert!(rt; makes(alloc, change, want.as_str())?, "{place}");
    }
    let change = PairChange::Set {
        place: 12_345,
        new: "a&b",
    };
    assert!(rt; is_refused(alloc, change)?);
    Ok(())
}

#[test]
fn of_pairs_that_come(rt: HostRuntime) -> Result<(), Fail> {
    let alloc = rt.alloc();
    for place in [0, 12_345, MANY] {
        let want = pairs(alloc, place, Some(("key", "")), place)?;
        let change = PairChange::Insert {
            place,
            key: "key",
            new: "",
        };
        assert!(rt; makes(alloc, change, want.as_str())?, "{place}");
    }
    let change = PairChange::Insert {
        place: 12_345,
        key: "k=y",
        new: "",
    };
    assert!(rt; is_refused(alloc, change)?);
    Ok(())
}

#[test]
fn of_pairs_that_go(rt: HostRuntime) -> Result<(), Fail> {
    let alloc = rt.alloc();
    for place in &PLACES {
        let want = pairs(alloc, *place, None, place.saturating_add(1))?;
        let change = PairChange::Delete { place: *place };
        assert!(rt; makes(alloc, change, want.as_str())?, "{place}");
    }
    Ok(())
}
