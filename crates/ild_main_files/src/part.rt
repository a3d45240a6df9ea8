//! Files that are written beside a name and then moved to it, so that no file under the name is ever half written.
use crate::name::part_path;
use std::fs::File;
use std::io::{ErrorKind, Write};
use std::rt::Files;
use std::{fs, io};

/// Makes the first part of a name that isn't there, and says how it is named. What is there already, be it another run's
/// or left by a crash, is neither written nor, where it is a link, followed.
fn begin<R: Files + AllocGlobal>(rt: &R, path: &str) -> io::Result<(String, R::File)> {
    for number in 0..u16::MAX {
        let part = part_path(rt.alloc(), path, number)?;
        match File::create_new(rt, part.as_str()) {
            Err(error) if error.kind() == ErrorKind::AlreadyExists => {}
            Err(error) => return Err(error),
            Ok(file) => return Ok((part, file)),
        }
    }
    Err(io::Error::from(ErrorKind::AlreadyExists))
}

/// Whose folder it is in which a file was put.
#[derive(Clone, Copy)]
pub(crate) enum Folder {
    /// It was there.
    Found,
    /// It was made for this file, so nothing else stands in it.
    Made,
}

/// Makes the folder, unless another run was faster.
fn make_folder<R: Files>(rt: &R, folder: &str) -> io::Result<Folder> {
    match fs::create_dir(rt, folder) {
        Err(error) if error.kind() == ErrorKind::AlreadyExists => Ok(Folder::Found),
        Err(error) => Err(error),
        Ok(()) => Ok(Folder::Made),
    }
}

/// Makes a part, and the folder where it isn't there.
fn begin_in<R: Files + AllocGlobal>(
    rt: &R,
    folder: &str,
    path: &str,
) -> io::Result<(Folder, String, R::File)> {
    match begin(rt, path) {
        Err(error) if error.kind() == ErrorKind::NotFound => {
            let whose = make_folder(rt, folder)?;
            let (part, file) = begin(rt, path)?;
            Ok((whose, part, file))
        }
        Err(error) => Err(error),
        Ok((part, file)) => Ok((Folder::Found, part, file)),
    }
}

/// Writes a new file to its end, and closes it. The library doesn't tell whether closing failed.
fn fill<F: Write + Drop>(mut file: F, bytes: &[u8]) -> io::Result<()> {
    file.write_all(bytes)
}

/// Writes a file beside its name, and moves it there when it is whole. Where that fails, what was written is taken away.
pub(crate) fn place<R: Files + AllocGlobal>(
    rt: &R,
    folder: &str,
    path: &str,
    bytes: &[u8],
) -> io::Result<Folder> {
    let (whose, part, file) = begin_in(rt, folder, path)?;
    match fill(file, bytes).and_then(|()| fs::rename(rt, part.as_str(), path)) {
        Ok(()) => Ok(whose),
        Err(error) => {
            let _ = fs::remove_file(rt, part.as_str());
            Err(error)
        }
    }
}
