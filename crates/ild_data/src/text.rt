//! Owned texts and bytes, which contracts see as lists of bytes.
ghost use Rattle.std.specs.Prelude.{◌≡◌, IfOk, IsUtf8, string_bytes};
ghost use Rattle.ild_data.specs.Bytes.{AreBytes};

use std::alloc::{AllocError, Global};
use std::marker::Model;

/// An owned text in UTF-8.
#[derive(Drop)]
pub struct Txt {
    text: String,
}

impl Model for Txt {
    ghost use Rattle.std.specs.Prelude.{List, ℕ, string_bytes, IsUtf8};

    ghost Value = { List ℕ };

    ghost view = { λ a. string_bytes a.text };

    ghost invariant = { λ a. IsUtf8 (string_bytes a.text) };
}

impl Txt {
    /// A copy of a text.
    pub fn of(alloc: Global, s: &str) -> Result<Txt, AllocError>
        ensures { IfOk result (λ t. t ≡ s.now) }
    {
        Ok(Txt {
            text: String::from_str(alloc, s)?,
        })
    }

    /// The text of a string, without a copy.
    pub fn from_string(text: String) -> Txt
        ensures { result ≡ string_bytes text }
    {
        let _utf8 = text.as_str().as_bytes();
        Txt { text }
    }

    /// The string of the text, without a copy.
    pub fn into_string(self) -> String
        ensures { string_bytes result ≡ self }
    {
        self.text
    }

    /// The same text, made anew.
    pub fn copy(&self) -> Result<Txt, AllocError>
        ensures { IfOk result (λ t. t ≡ self.now) }
    {
        Ok(Txt {
            text: self.text.clone()?,
        })
    }

    /// The text as a borrow.
    pub fn as_str(&self) -> &str
        ensures same { result.now ≡ self.now }
        ensures utf8 { IsUtf8 self.now }
    {
        self.text.as_str()
    }
}

/// The items of a slice of bytes are bytes; a caller that needs the fact makes this call, which does no work.
fn are_bytes(bytes: &[u8])
    ensures { AreBytes bytes.now }
{}

/// Owned bytes.
#[derive(Drop)]
pub struct Octets {
    bytes: Vec<u8>,
}

impl Model for Octets {
    ghost use Rattle.std.specs.Prelude.{List, ℕ};
    ghost use Rattle.ild_data.specs.Bytes.{AreBytes};

    ghost Value = { List ℕ };

    ghost view = { λ a. a.bytes.items };

    ghost invariant = { λ a. AreBytes a.bytes.items };
}

impl Octets {
    /// A copy of bytes.
    pub fn of(alloc: Global, b: &[u8]) -> Result<Octets, AllocError>
        ensures { IfOk result (λ t. t ≡ b.now) }
    {
        Ok(Octets::from_vec(b.to_vec(alloc)?))
    }

    /// The bytes of a vector, without a copy.
    pub fn from_vec(bytes: Vec<u8>) -> Octets
        ensures { result ≡ bytes.items }
    {
        are_bytes(&bytes);
        Octets { bytes }
    }

    /// The vector of the bytes, without a copy.
    pub fn into_vec(self) -> Vec<u8>
        ensures { result.items ≡ self }
    {
        self.bytes
    }

    /// The same bytes, made anew.
    pub fn copy(&self) -> Result<Octets, AllocError>
        ensures { IfOk result (λ t. t ≡ self.now) }
    {
        Ok(Octets {
            bytes: self.bytes.clone()?,
        })
    }

    /// The bytes as a borrow.
    pub fn as_slice(&self) -> &[u8]
        ensures same { result.now ≡ self.now }
        ensures bytes { AreBytes self.now }
    {
        &self.bytes
    }
}
