//! One piece of the engine's work, done so many times over a file: what `bench/run` measures. Words: WORK FILE TIMES.
#![tactic(auto)]

mod blocks;
mod bulk;
mod given;
mod hamt;
mod layers;
mod trees;
mod values;
mod walks;
mod whole;

use given::given;
use layers::{Work, all_structs};
use std::io;
use std::process::ExitCode;
use walks::walk_all;

fn main(rt: HostRuntime) -> io::Result<ExitCode> {
    let Some((work, bytes, times)) = given(&rt)? else {
        println!(rt; "words: WORK FILE TIMES")?;
        return Ok(ExitCode::from(2));
    };
    let alloc = rt.alloc();
    let sum = match work.as_str() {
        "check" => blocks::check_all(&bytes, times),
        "items" => blocks::all_items(&bytes, times),
        "entries" => blocks::all_entries(&bytes, times),
        "entry" => blocks::last_entry(&bytes, times),
        "layers-straight" => all_structs(alloc, &bytes, times, "Straight", Work::Layer),
        "layers-crossed" => all_structs(alloc, &bytes, times, "Crossed", Work::Layer),
        "parts-straight" => all_structs(alloc, &bytes, times, "Straight", Work::Parts),
        "parts-crossed" => all_structs(alloc, &bytes, times, "Crossed", Work::Parts),
        "walk-straight" => walk_all(alloc, &bytes, times, "Straights"),
        "walk-crossed" => walk_all(alloc, &bytes, times, "Crosseds"),
        "walk-list" => walk_all(alloc, &bytes, times, "Ints"),
        "walk-map" => walk_all(alloc, &bytes, times, "Entries"),
        "walk-pairs" => walk_all(alloc, &bytes, times, "Pairs"),
        "id" => blocks::all_ids(&bytes, times),
        "read" => trees::read_all(alloc, &bytes, times),
        "print" => trees::print_all(alloc, &bytes, times),
        "spell" => trees::spell_all(alloc, &bytes, times),
        "write" => values::write_all(alloc, &bytes, times, "People"),
        "write-list" => values::write_all(alloc, &bytes, times, "Ints"),
        "compile" => whole::compile_all(alloc, &bytes, times),
        "hamt" => hamt::edit_all(alloc, &bytes, times),
        "bulk" => bulk::plan_all(alloc, &bytes, times),
        "bulk-hashes" => bulk::hash_all(alloc, &bytes, times),
        "gen-memory" => whole::generate_all(alloc, &bytes, times),
        "script" => whole::answer_all_of(alloc, &bytes, times),
        _ => None,
    };
    match sum {
        Some(sum) => {
            println!(rt; "sum {sum}")?;
            Ok(ExitCode::from(0))
        }
        None => {
            println!(rt; "no such work, or the file isn't for it")?;
            Ok(ExitCode::from(1))
        }
    }
}
