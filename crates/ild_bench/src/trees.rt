//! Work over the JSON of a value. Each answers a sum of lengths, or `None` where the bytes are no such JSON or memory is
//! wanting.
use ild_emit::Emit;
use ild_json::{print, read};
use std::alloc::Global;

/// The JSON is read as a tree.
pub(crate) fn read_all(alloc: Global, bytes: &[u8], times: u32) -> Option<u64> {
    let mut sum: u64 = 0;
    for _ in 0..times {
        let _tree = read(alloc, bytes).ok()?;
        sum = sum.wrapping_add(bytes.len() as u64);
    }
    Some(sum)
}

/// The tree is printed as JSON.
pub(crate) fn print_all(alloc: Global, bytes: &[u8], times: u32) -> Option<u64> {
    let tree = read(alloc, bytes).ok()?;
    let mut sum: u64 = 0;
    for _ in 0..times {
        let text = print(alloc, &tree).ok()?;
        sum = sum.wrapping_add(text.as_str().len() as u64);
    }
    Some(sum)
}

/// The tree is spelled as a block.
pub(crate) fn spell_all(alloc: Global, bytes: &[u8], times: u32) -> Option<u64> {
    let tree = read(alloc, bytes).ok()?;
    let mut sum: u64 = 0;
    for _ in 0..times {
        let mut emit = Emit::new(alloc);
        emit.tree(&tree).ok()?;
        sum = sum.wrapping_add(emit.finish().as_slice().len() as u64);
    }
    Some(sum)
}
