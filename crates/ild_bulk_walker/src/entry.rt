//! An entry that is read out of the block in which it stands.
ghost use Rattle.std.specs.Prelude.{◌≡◌, IsUtf8};
ghost use Rattle.ild_data.specs.Bytes.{AreBytes};

use crate::row::Row;
use crate::step::Entry;
use ild_data::{BlockId, Octets, Txt};
use std::alloc::{AllocError, Global};

// Bytes that were found to be UTF-8 before, as text.
fn known_text(bytes: &[u8]) -> &str
    requires { IsUtf8 bytes.now }
    ensures { result.now ≡ bytes.now }
{
    unsafe { str::from_utf8_unchecked(bytes) }
}

// The items of a slice of bytes are bytes.
fn are_bytes(bytes: &[u8])
    ensures { AreBytes bytes.now }
{}

impl Entry {
    ghost use Rattle.std.specs.Prelude.{◌≡◌, IfOk};
    ghost use Rattle.ild_data.specs.Spell.{spell};
    ghost use Rattle.ild_bulk_walker.specs.Steps.{IsRowOf, entry_key, entry_value};

    /// The key.
    pub(crate) fn key(&self) -> &[u8]
        ensures { result.now ≡ entry_key self.now }
    {
        &self.held.as_slice()[self.from..self.middle]
    }

    // The spelling of the value.
    fn spelling(&self) -> &[u8]
        ensures { result.now ≡ spell (entry_value self.now) }
    {
        let bytes = &self.held.as_slice()[self.middle..self.to];
        are_bytes(bytes);
        bytes
    }

    /// A copy of the entry, which stands in the block of this id.
    pub(crate) fn row(&self, alloc: Global, block: BlockId) -> Result<Row, AllocError>
        ensures { IfOk result (IsRowOf self.now block.0) }
    {
        Ok(Row {
            key: Txt::of(alloc, known_text(self.key()))?,
            value: Octets::of(alloc, self.spelling())?,
            block,
        })
    }
}
