//! What is asked of the view of a block, in rows of tables. The first line of a row has a type, a block in hexadecimals, and a word for what is asked:
//! behind `paths` each line has a path and what stands there; behind `items` what each element shows, behind `entries` and `fields` a name and what its
//! part shows; behind `json` a path and the DAG-JSON of the data there.
use crate::seen::{is_shown, leads, path_of, shows, view_of};
use hex::decode;
use ild_compile::compile;
use ild_json::print;
use ild_schema::Accepted;
use ild_view::{Step, View};
use std::alloc::Global;

fn are_led_to(alloc: Global, view: &View<'_>, rows: &str) -> Option<bool> {
    for row in rows.lines() {
        let (path, want) = row.split_once(' ')?;
        if !leads(alloc, view, &path_of(alloc, path)?, want)? {
            return None;
        }
    }
    Some(true)
}

/// The elements in order, and each by its index.
fn are_items(alloc: Global, view: &View<'_>, wants: &str) -> Option<bool> {
    let mut left = view.items()?;
    let mut place = 0u64;
    for want in wants.lines() {
        if !is_shown(alloc, left.next(), want)? || !is_shown(alloc, view.item(place), want)? {
            return None;
        }
        place = place.saturating_add(1);
    }
    Some(left.next().is_none() && view.item(place).is_none())
}

/// The keys with their values in order, and each value by its key.
fn are_entries(alloc: Global, view: &View<'_>, wants: &str) -> Option<bool> {
    let mut left = view.entries()?;
    for row in wants.lines() {
        let (name, want) = row.split_once(' ')?;
        let (key, part) = left.next()?;
        if key != name || !shows(alloc, &part, want)? || !is_shown(alloc, view.entry(name), want)? {
            return None;
        }
    }
    Some(left.next().is_none())
}

fn are_fields(alloc: Global, view: &View<'_>, wants: &str) -> Option<bool> {
    for row in wants.lines() {
        let (name, want) = row.split_once(' ')?;
        if !is_shown(alloc, view.field(name), want)? {
            return None;
        }
    }
    Some(true)
}

fn is_json(alloc: Global, view: &View<'_>, row: &str) -> Option<bool> {
    let (path, want) = row.split_once(' ')?;
    let Ok(Step::Here(part)) = view.at(&path_of(alloc, path)?, 0) else {
        return None;
    };
    let tree = part.rep(alloc).ok()?;
    Some(print(alloc, &tree).ok()?.as_str() == want)
}

/// Whether what is asked of a view is so.
fn is_told(alloc: Global, view: &View<'_>, word: &str, rows: &str) -> Option<bool> {
    match word {
        "paths" => are_led_to(alloc, view, rows),
        "items" => are_items(alloc, view, rows),
        "entries" => are_entries(alloc, view, rows),
        "fields" => are_fields(alloc, view, rows),
        _ => is_json(alloc, view, rows),
    }
}

fn is_so(alloc: Global, acc: &Accepted, row: &str) -> Option<bool> {
    let (front, rows) = row.split_once('\n').unwrap_or((row, ""));
    let (name, rest) = front.split_once(' ')?;
    let (block, word) = rest.split_once(' ')?;
    let block = decode(alloc, block).ok()?;
    let view = view_of(alloc, acc, name, &block)?;
    is_told(alloc, &view, word, rows)
}

/// The first row of a table that isn't so under a schema is an error.
pub(crate) fn all_so(alloc: Global, src: &str, rows: &[&'static str]) -> Result<(), &'static str> {
    let acc = compile(alloc, src.as_bytes()).ok().ok_or("a schema")?;
    for row in rows {
        if is_so(alloc, &acc, row) != Some(true) {
            return Err(*row);
        }
    }
    Ok(())
}
