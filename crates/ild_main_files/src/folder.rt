//! A folder of blocks as a store.
ghost use Rattle.std.specs.Fs.{file_type, metadata_len, IsFile};
ghost use Rattle.std.specs.IoError.{error_kind};
ghost use Rattle.std.specs.Prelude.{◌≡◌, ◌≢◌, ◌<◌, ◌⊎◌, [], None, Ok, IfOk, IfSome, IsOkAnd, IsErrAnd};
ghost use Rattle.ild_data.specs.Spell.{id_of};

use crate::cause::cause;
use crate::found::plain_len;
use crate::load::load;
use crate::name::block_path;
use crate::own::{OwnBlocks, front, may_stand, note};
use crate::part::place;
use ild_data::{BlockId, LONGEST_BLOCK as LONGEST, Octets, block_id};
use ild_edges::{EdgeErr, Store};
use std::fs::Metadata;
use std::io::ErrorKind;
use std::rt::Files;
use std::{fs, io};

/// A folder with one file a block, named by the text of the block's CID. It tells nothing of what there is.
///
/// A file that doesn't hash to its name, or that is longer than a block may be, counts as not there, and so does what is no plain file:
/// a folder, a named pipe, a device. Such a thing isn't opened, for opening a pipe waits for a writer. Only where another program puts one
/// there between the look at the name and the opening, the call waits.
///
/// A block is written beside its name and then moved to it, so that no file under a block's name is ever a part of the block. A folder
/// under the name stays as it is, and the put fails. Behind the move nothing of a put can fail: a put that stored its block never answers
/// want of memory. In a folder that this store made itself, a put looks for a file only where it put that block before, or one whose id
/// has the same front.
#[derive(Drop)]
pub struct FolderStore<'r, R: Files + AllocGlobal> {
    rt: &'r R,
    folder: &'r str,
    own: OwnBlocks,
    gets: u64,
    puts: u64,
    lacks: u64,
    faults: u64,
}

impl<'r, R: Files + AllocGlobal> FolderStore<'r, R> {
    /// The blocks in a folder, which is made when the first block is put.
    pub fn new(rt: &'r R, folder: &'r str) -> FolderStore<'r, R>
        ensures folder { result.folder.now ≡ folder.now }
        ensures gets { result.gets ≡ 0 }
        ensures puts { result.puts ≡ 0 }
        ensures lacks { result.lacks ≡ 0 }
        ensures faults { result.faults ≡ 0 }
    {
        FolderStore {
            rt,
            folder,
            own: None,
            gets: 0,
            puts: 0,
            lacks: 0,
            faults: 0,
        }
    }
}

/// The block in a file, by what the system told of its path: a plain file that holds the block of this id. What is no plain file, or is too long,
/// holds none. No more than the length that was told is read, so that the end needn't be looked for; where it is told as 0, as by file
/// systems that don't know it, as much as a block may have and a byte.
fn held_there<R: Files + AllocGlobal>(
    rt: &R,
    path: &str,
    id: &BlockId,
    told: io::Result<Metadata>,
) -> Result<Option<Octets>, EdgeErr>
    ensures block { IfOk result (λ block. IfSome block (λ b. id_of b ≡ id.now.0)) }
    ensures other { (IsOkAnd told (λ m. IsFile (file_type m) → ⊥) ⊎ IsErrAnd told (λ e. error_kind e ≡ ErrorKind.NotFound)) → result ≡ Ok None }
    ensures long { IsOkAnd told (λ m. 4194304 < metadata_len m) → result ≡ Ok None }
{
    let Some(len) = plain_len(told)? else {
        return Ok(None);
    };
    if len > LONGEST as u64 {
        return Ok(None);
    }
    let most = if len == 0 { LONGEST as u64 + 1 } else { len };
    match load(rt, path, most, len as usize) {
        Ok(bytes) => {
            if bytes.len() <= LONGEST && block_id(&bytes) == *id {
                Ok(Some(Octets::from_vec(bytes)))
            } else {
                Ok(None)
            }
        }
        Err(error) => {
            if error.kind() == ErrorKind::NotFound {
                Ok(None)
            } else {
                Err(cause(error))
            }
        }
    }
}

/// The block under a path, where a plain file holds the block of this id.
fn held<R: Files + AllocGlobal>(rt: &R, path: &str, id: &BlockId) -> Result<Option<Octets>, EdgeErr>
    ensures { IfOk result (λ block. IfSome block (λ b. id_of b ≡ id.now.0)) }
{
    held_there(rt, path, id, fs::metadata(rt, path))
}

/// What a put hands back where a file holds a block of the id already: the block, where its bytes are others.
fn other(block: Octets, bytes: &[u8]) -> Option<Octets>
    ensures other { IfSome result (λ b. b ≢ bytes.now) }
    ensures same { IfSome result (λ b. b ≡ block) }
{
    if block.as_slice() == bytes {
        None
    } else {
        Some(block)
    }
}

/// Writes a block into its file. Nothing fails behind its move to its name.
fn write<R: Files + AllocGlobal>(
    rt: &R,
    folder: &str,
    own: &mut OwnBlocks,
    path: &str,
    id: &BlockId,
    bytes: &[u8],
) -> Result<(), EdgeErr> {
    match place(rt, folder, path, bytes) {
        Ok(whose) => {
            note(own, rt.alloc(), whose, front(id));
            Ok(())
        }
        Err(error) => Err(cause(error)),
    }
}

/// Puts a block into its file, unless the file holds a block of its id already: other bytes are handed back.
fn keep<R: Files + AllocGlobal>(
    rt: &R,
    folder: &str,
    own: &mut OwnBlocks,
    id: &BlockId,
    bytes: &[u8],
) -> Result<Option<Octets>, EdgeErr>
    ensures { IfOk result (λ kept. IfSome kept (λ b. (id_of b ≡ id.now.0) × (b ≢ bytes.now))) }
{
    let path = block_path(rt.alloc(), folder, id)?;
    if may_stand(own, front(id)) {
        if let Some(block) = held(rt, path.as_str(), id)? {
            return Ok(other(block, bytes));
        }
    }
    if bytes.len() > LONGEST {
        return Err(EdgeErr::Failed);
    }
    write(rt, folder, own, path.as_str(), id, bytes)?;
    Ok(None)
}

impl<'r, R: Files + AllocGlobal> Store for FolderStore<'r, R> {
    ghost moment = { λ s. record { blocks = None; given = None; gets = s.gets; puts = s.puts; lacks = s.lacks; faults = s.faults; beneath = [] } };

    fn get(&mut self, id: &BlockId) -> Result<Option<Octets>, EdgeErr> {
        self.gets = self.gets.saturating_add(1);
        let path = block_path(self.rt.alloc(), self.folder, id)?;
        match held(self.rt, path.as_str(), id) {
            Ok(Some(block)) => Ok(Some(block)),
            Ok(None) => {
                self.lacks = self.lacks.saturating_add(1);
                Ok(None)
            }
            Err(EdgeErr::Failed) => {
                self.faults = self.faults.saturating_add(1);
                Err(EdgeErr::Failed)
            }
            Err(EdgeErr::Memory) => Err(EdgeErr::Memory),
        }
    }

    fn put(&mut self, id: &BlockId, bytes: &[u8]) -> Result<Option<Octets>, EdgeErr> {
        self.puts = self.puts.saturating_add(1);
        match keep(self.rt, self.folder, &mut self.own, id, bytes) {
            Ok(kept) => Ok(kept),
            Err(EdgeErr::Failed) => {
                self.faults = self.faults.saturating_add(1);
                Err(EdgeErr::Failed)
            }
            Err(EdgeErr::Memory) => Err(EdgeErr::Memory),
        }
    }
}
