//! The order of keys, the range of integers, and lists, maps and paths: what was put in is there, and a copy has the same.
use ild_data::{Entries, Int, Path, Tree, Trees, Txt, key_less};
use std::alloc::Global;
use std::test::Fail;

/// A map with these numbers put into it, one after another.
fn numbers(alloc: Global) -> Result<Entries, Fail> {
    let mut entries = Entries::new(alloc);
    for (key, number) in [("aa", 2), ("b", 1), ("aa", 3)] {
        let number = Int::new(number).ok_or("in range")?;
        entries.put(Txt::of(alloc, key)?, Tree::Int(number))?;
    }
    Ok(entries)
}

fn number_at(map: &Entries, at: usize) -> Option<(&str, i128)> {
    match map.get(at) {
        Some((key, Tree::Int(number))) => Some((key.as_str(), number.get())),
        _ => None,
    }
}

#[test]
fn entries_hold_what_was_put(rt: HostRuntime) -> Result<(), Fail> {
    let map = numbers(rt.alloc())?;
    for (at, want) in [(0, Some(("b", 1))), (1, Some(("aa", 3))), (2, None)] {
        assert_eq!(rt; number_at(&map, at), want);
    }
    Ok(())
}

/// The number at a place of the map that is the second item of a list.
fn number_inside(tree: &Tree, at: usize) -> Option<(&str, i128)> {
    let Tree::List(items) = tree else {
        return None;
    };
    match items.get(1) {
        Some(Tree::Map(map)) => number_at(map, at),
        _ => None,
    }
}

#[test]
fn copies_hold_the_same(rt: HostRuntime) -> Result<(), Fail> {
    let mut trees = Trees::new(rt.alloc());
    trees.push(Tree::Null)?;
    trees.push(Tree::Map(numbers(rt.alloc())?))?;
    let copy = Tree::List(trees).copy()?;
    assert_eq!(rt; number_inside(&copy, 1), Some(("aa", 3)));
    Ok(())
}

#[test]
fn paths_hold_segments(rt: HostRuntime) -> Result<(), Fail> {
    let mut path = Path::new(rt.alloc());
    path.push(Txt::of(rt.alloc(), "b")?)?;
    let first = path.get(0).ok_or("a segment")?;
    assert_eq!(rt; first.as_str(), "b");
    Ok(())
}

#[test]
fn orders(rt: HostRuntime) {
    for (less, more) in [("", "a"), ("b", "aa"), ("a", "b"), ("z", "é")] {
        assert!(rt; key_less(less, more), "{less} before {more}");
        assert!(rt; !key_less(more, less), "{more} not before {less}");
    }
}

#[test]
fn ranges(rt: HostRuntime) {
    for (number, held) in [
        (-0x8000_0000_0000_0000, true),
        (-0x8000_0000_0000_0001, false),
        (0xffff_ffff_ffff_ffff, true),
        (0x1_0000_0000_0000_0000, false),
    ] {
        assert_eq!(rt; Int::new(number).is_some(), held, "at {number}");
    }
}
