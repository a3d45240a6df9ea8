//! Reading a file up to a limit.
use std::io::Read;
use std::rt::Files;
use std::{fs, io};

/// The bytes of a file, or of its front where it has more than `most`: then so many. As many as `room` have their room at once.
pub(crate) fn load<R: Files + AllocGlobal>(
    rt: &R,
    path: &str,
    most: u64,
    room: usize,
) -> io::Result<Vec<u8>> {
    let mut front = fs::open(rt, path)?.take(most);
    let mut bytes = Vec::with_capacity(rt.alloc(), room)?;
    front.read_to_end(&mut bytes)?;
    Ok(bytes)
}
