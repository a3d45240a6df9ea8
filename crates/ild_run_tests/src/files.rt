//! What files on a disk don't show: a block that is too long, a file that can't be moved, a terminal that takes nothing.
//! The built program's own tests over files and folders stand in tests/conformance.
use ild_data::block_id;
use ild_edges::{EdgeErr, Sink, Store};
use ild_main_files::{FolderStore, StdSink};
use std::alloc::{Allocator, Global};
use std::cell::Cell;
use std::fmt::Display;
use std::fs::{Metadata, OpenOptions};
use std::io::ErrorKind;
use std::rt::Files;
use std::test::Fail;
use std::{env, fs, io, process};

/// A file system on which nothing can be moved.
#[derive(Drop)]
struct Unmoved<'r> {
    rt: &'r HostRuntime,
}

impl<'r> Alloc for Unmoved<'r> {
    type A = Global;

    fn alloc(&self) -> Global {
        self.rt.alloc()
    }
}

impl<'r> Files for Unmoved<'r> {
    type File = <HostRuntime as Files>::File;

    type Dir = <HostRuntime as Files>::Dir;

    fn open_file(&self, how: &OpenOptions, path: &str) -> io::Result<Self::File> {
        self.rt.open_file(how, path)
    }

    fn open_dir(&self, path: &str) -> io::Result<Self::Dir> {
        self.rt.open_dir(path)
    }

    fn metadata(&self, path: &str) -> io::Result<Metadata> {
        Files::metadata(self.rt, path)
    }

    fn symlink_metadata(&self, path: &str) -> io::Result<Metadata> {
        self.rt.symlink_metadata(path)
    }

    fn copy(&self, from: &str, to: &str) -> io::Result<u64> {
        self.rt.copy(from, to)
    }

    fn rename(&self, _: &str, _: &str) -> io::Result<()> {
        Err(io::Error::from(ErrorKind::CrossesDevices))
    }

    fn remove_file(&self, path: &str) -> io::Result<()> {
        self.rt.remove_file(path)
    }

    fn create_dir(&self, path: &str) -> io::Result<()> {
        self.rt.create_dir(path)
    }

    fn remove_dir(&self, path: &str) -> io::Result<()> {
        self.rt.remove_dir(path)
    }

    fn remove_dir_all<B: Allocator>(&self, alloc: B, path: &str) -> io::Result<()> {
        self.rt.remove_dir_all(alloc, path)
    }
}

/// A folder in which nothing is.
fn fresh(rt: &HostRuntime) -> Result<String, Fail> {
    let above = env::temp_dir(rt)?;
    let above = above.as_path();
    let number = process::id(rt.process());
    let path = format!(in rt.alloc(); "{}/ild-{number}", above.display())?;
    let _ = fs::remove_dir_all(rt, path.as_str());
    fs::create_dir(rt, path.as_str())?;
    Ok(path)
}

/// Whether a put fails.
fn fails<K: Store>(store: &mut K, bytes: &[u8]) -> bool {
    matches!(store.put(&block_id(bytes), bytes), Err(EdgeErr::Failed))
}

#[test]
fn a_put_that_fails_leaves_nothing(rt: HostRuntime) -> Result<(), Fail> {
    let folder = fresh(&rt)?;
    let unmoved = Unmoved { rt: &rt };
    assert!(rt; fails(&mut FolderStore::new(&unmoved, folder.as_str()), b"\xa0"));
    let mut long = Vec::new(rt.alloc());
    long.resize(4_194_305, 0)?;
    assert!(rt; fails(&mut FolderStore::new(&rt, folder.as_str()), &long));
    assert_eq!(rt; fs::read_dir(&rt, folder.as_str())?.count(), 0);
    fs::remove_dir_all(&rt, folder.as_str())?;
    Ok(())
}

/// A terminal that counts what it is given to write at once.
#[derive(Drop)]
struct Counting {
    most: Cell<usize>,
}

impl Print for Counting {
    fn print<D: Display + Drop>(&self, _: D) -> io::Result<()> {
        Err(io::Error::from(ErrorKind::StorageFull))
    }

    fn println<D: Display + Drop>(&self, _: D) -> io::Result<()> {
        Err(io::Error::from(ErrorKind::StorageFull))
    }

    fn write_all(&self, bytes: &[u8]) -> io::Result<()> {
        self.most.set(bytes.len());
        Ok(())
    }
}

#[test]
fn a_long_reply_is_one_write(rt: HostRuntime) -> Result<(), Fail> {
    let mut reply = Vec::new(rt.alloc());
    reply.resize(100_000, b'x')?;
    let out = Counting { most: Cell::new(0) };
    assert_eq!(rt; StdSink::new(&out).write(&reply), Ok(()));
    assert_eq!(rt; out.most.get(), 100_000);
    Ok(())
}
