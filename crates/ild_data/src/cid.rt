//! Content identifiers (multiformats, CIDv1) in their binary form.
ghost use Rattle.std.specs.Prelude.{◌≡◌, IfOk};

use crate::{CidFault, CidRef, Octets};
use std::alloc::{AllocError, Global};
use std::marker::Model;

/// An owned binary CID.
#[derive(Drop)]
pub struct Cid {
    bytes: Octets,
}

impl Model for Cid {
    ghost use Rattle.std.specs.Prelude.{List, ℕ};
    ghost use Rattle.ild_data.specs.Cid.{IsCid};

    ghost Value = { List ℕ };

    ghost view = { λ a. a.bytes };

    ghost invariant = { λ a. IsCid a.bytes };
}

impl Cid {
    ghost use Rattle.ild_data.specs.Bytes.{AreBytes};
    ghost use Rattle.ild_data.specs.Cid.{IsCid};
    ghost use Rattle.std.specs.Prelude.{◌↔◌, IfErr, IsOk};
    ghost use Rattle.ild_data.specs.CidRead.{read_cid};
    ghost use Rattle.ild_data.specs.CidView.{cid_bytes};

    /// The CID that is borrowed, made anew.
    pub(crate) fn of(alloc: Global, cid: &CidRef<'_>) -> Result<Cid, AllocError>
        ensures { IfOk result (λ t. t ≡ cid_bytes cid.now) }
    {
        Ok(Cid {
            bytes: Octets::of(alloc, cid.whole())?,
        })
    }

    /// The CID that the bytes of a vector are, without a copy.
    pub fn from_vec(bytes: Vec<u8>) -> Result<Cid, CidFault>
        ensures form { IsOk result ↔ IsCid bytes.items }
        ensures whole { IfOk result (λ t. t ≡ bytes.items) }
        ensures fault { IfErr result (λ e. read_cid bytes.items ≡ Err e) }
    {
        CidRef::read(&bytes)?;
        Ok(Cid {
            bytes: Octets::from_vec(bytes),
        })
    }

    /// The same CID, made anew.
    pub fn copy(&self) -> Result<Cid, AllocError>
        ensures { IfOk result (λ t. t ≡ self.now) }
    {
        Ok(Cid {
            bytes: self.bytes.copy()?,
        })
    }

    /// The bytes of the CID.
    pub fn as_slice(&self) -> &[u8]
        ensures same { result.now ≡ self.now }
        ensures form { IsCid self.now }
        ensures bytes { AreBytes self.now }
    {
        self.bytes.as_slice()
    }

    /// The CID as a borrow.
    pub fn view(&self) -> CidRef<'_>
        ensures { cid_bytes result ≡ self.now }
    {
        CidRef::known(self.as_slice())
    }
}
