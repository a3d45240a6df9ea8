//! What the command line gives: a piece of work, the bytes of a file, and how often the work is done.
use std::io::Read;
use std::rt::{Env, Files};
use std::{env, fs, io};

/// The words without the program's name.
fn words<R: Env + AllocGlobal>(rt: &R) -> io::Result<Vec<String>> {
    let mut words = Vec::new(rt.alloc());
    for word in env::args(rt)?.skip(1) {
        words.push(word)?;
    }
    Ok(words)
}

/// The bytes of a file.
fn load<R: Files + AllocGlobal>(rt: &R, path: &str) -> io::Result<Vec<u8>> {
    let mut bytes = Vec::new(rt.alloc());
    let mut file = fs::open(rt, path)?;
    file.read_to_end(&mut bytes)?;
    Ok(bytes)
}

/// The piece of work, the bytes of the file and the number of times, or `None` where the words are others.
pub(crate) fn given<R: Env + Files + AllocGlobal>(
    rt: &R,
) -> io::Result<Option<(String, Vec<u8>, u32)>> {
    let words = words(rt)?;
    match words.as_slice() {
        [work, file, times] => match times.parse::<u32>() {
            Ok(times) => Ok(Some((
                String::from_str(rt.alloc(), work.as_str())?,
                load(rt, file.as_str())?,
                times,
            ))),
            Err(_) => Ok(None),
        },
        _ => Ok(None),
    }
}
