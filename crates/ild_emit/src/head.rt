//! The heads of items (RFC 8949, section 3).
ghost use Rattle.std.specs.Prelude.{◌≡◌, ◌++◌, ◌<◌, length, OnOk, OnErr};
ghost use Rattle.ild_data.specs.Spell.{head};

use crate::argument::behind_and_low;
use std::alloc::AllocError;

/// Appends the shortest head, or leaves the buffer unchanged.
#[inline(always)]
pub fn add_head(out: &mut Vec<u8>, major: u8, n: u64) -> Result<(), AllocError>
    requires { major < 6 }
    ensures ok { OnOk result (out.new.items ≡ out.old.items ++ head major n) }
    ensures err { OnErr result (out.new.items ≡ out.old.items) }
{
    if n < 24 {
        out.push(32 * major + n as u8)?;
        Ok(())
    } else {
        add_long_head(out, major, n)
    }
}

// Appends a head of more than one byte, or leaves the buffer unchanged.
#[inline(never)]
fn add_long_head(out: &mut Vec<u8>, major: u8, n: u64) -> Result<(), AllocError>
    requires { major < 6 }
    ensures ok { OnOk result (out.new.items ≡ out.old.items ++ head major n) }
    ensures err { OnErr result (out.new.items ≡ out.old.items) }
{
    add_head_at_once(out, major, n)
}

/// Appends the shortest head, or leaves the buffer unchanged, with no branch on its length: nine bytes go in, and those behind the head are cut off.
#[inline(always)]
pub fn add_head_at_once(out: &mut Vec<u8>, major: u8, n: u64) -> Result<(), AllocError>
    requires { major < 6 }
    ensures ok { OnOk result (out.new.items ≡ out.old.items ++ head major n) }
    ensures err { OnErr result (out.new.items ≡ out.old.items) }
{
    let before = out.len();
    let (behind, low) = behind_and_low(n);
    let mut piece = [32 * major + low; 9];
    piece[1..].copy_from_slice(&(n << ((64 - 8 * behind) % 64)).to_be_bytes());
    out.extend_from_slice(&piece)?;
    out.truncate(before + 1 + behind);
    Ok(())
}

/// Appends a head and the bytes that it counts, or leaves the buffer unchanged. A short piece, whose head is one byte, goes in with it in one step.
#[inline(always)]
pub fn add_string(out: &mut Vec<u8>, major: u8, piece: &[u8]) -> Result<(), AllocError>
    requires { major < 6 }
    ensures ok { OnOk result (out.new.items ≡ out.old.items ++ (head major (length piece.now) ++ piece.now)) }
    ensures err { OnErr result (out.new.items ≡ out.old.items) }
{
    if piece.len() < 24 {
        out.reserve(piece.len() + 1)?;
        out.push_reserved(32 * major + piece.len() as u8);
        out.extend_from_slice(piece)
    } else {
        add_long_string(out, major, piece)
    }
}

// Appends a head of any length and the bytes that it counts, or leaves the buffer unchanged.
#[inline(never)]
fn add_long_string(out: &mut Vec<u8>, major: u8, piece: &[u8]) -> Result<(), AllocError>
    requires { major < 6 }
    ensures ok { OnOk result (out.new.items ≡ out.old.items ++ (head major (length piece.now) ++ piece.now)) }
    ensures err { OnErr result (out.new.items ≡ out.old.items) }
{
    let before = out.len();
    add_head(out, major, piece.len() as u64)?;
    if let Err(e) = out.extend_from_slice(piece) {
        out.truncate(before);
        return Err(e);
    }
    Ok(())
}
