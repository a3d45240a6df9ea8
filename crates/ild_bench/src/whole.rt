//! Whole commands in memory: compiling a schema, answering a script, and the generator.
use ild_compile::compile;
use ild_edges::{MemSink, MemStore};
use ild_run_generate::generate;
use ild_run_open::Start;
use ild_run_script::run_script;
use std::alloc::Global;

/// The schema is compiled.
pub(crate) fn compile_all(alloc: Global, bytes: &[u8], times: u32) -> Option<u64> {
    let mut sum: u64 = 0;
    for _ in 0..times {
        let schema = compile(alloc, bytes).ok()?;
        sum = sum.wrapping_add(schema.types() as u64);
    }
    Some(sum)
}

/// The script is answered over the empty map from texts to integers and an empty store. Answers how many bytes the replies have.
fn replies_to(alloc: Global, script: &[u8]) -> Option<u64> {
    let schema = compile(alloc, b"type M {String:Int}\n").ok()?;
    let ty = schema.type_named("M")?;
    if ty.0 >= schema.types() {
        return None;
    }
    let mut store = MemStore::new(alloc, &[], &[]).ok()?;
    let mut out = MemSink::new(alloc, &[]).ok()?;
    let _refused = run_script(
        alloc,
        &schema,
        ty,
        Start::Empty,
        script,
        &mut store,
        &mut out,
    )
    .ok()?;
    Some(out.bytes().len() as u64)
}

/// The script is answered.
pub(crate) fn answer_all_of(alloc: Global, script: &[u8], times: u32) -> Option<u64> {
    let mut sum: u64 = 0;
    for _ in 0..times {
        sum = sum.wrapping_add(replies_to(alloc, script)?);
    }
    Some(sum)
}

/// How many steps, and from which seed.
fn steps_of(bytes: &[u8]) -> Option<(u64, u64)> {
    let (count, seed) = str::from_utf8(bytes).ok()?.split_once(" ")?;
    Some((count.parse::<u64>().ok()?, seed.parse::<u64>().ok()?))
}

/// The generator runs over an empty store. Answers a sum over its summary and the bytes of its root.
pub(crate) fn generate_all(alloc: Global, bytes: &[u8], times: u32) -> Option<u64> {
    let (count, seed) = steps_of(bytes)?;
    let mut sum: u64 = 0;
    for _ in 0..times {
        let mut store = MemStore::new(alloc, &[], &[]).ok()?;
        let summary = generate(alloc, count, seed, &mut store).ok()?;
        for n in [summary.sets, summary.dels, summary.absent, summary.len] {
            sum = sum.wrapping_add(n);
        }
        for byte in summary.root.0 {
            sum = sum.wrapping_add(byte as u64);
        }
    }
    Some(sum)
}
