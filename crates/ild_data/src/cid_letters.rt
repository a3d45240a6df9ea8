//! The text of a CID: `b` and the binary CID in base32 (multibase, RFC 4648).
ghost use Rattle.std.specs.Prelude.{◌≡◌, ◌⊎◌, IfOk, IfErr};
ghost use Rattle.ild_data.specs.CidText.{cid_text_of};
ghost use Rattle.ild_data.specs.CidTextRead.{read_cid_text};
ghost use Rattle.ild_data.specs.CidView.{cid_bytes};
ghost use Rattle.ild_data.specs.Spell.{cid_of};

use crate::base32::{push_base32, read_base32};
use crate::{BlockId, Cid, CidRef, TextErr, Txt};
use std::alloc::{AllocError, Global};

/// The text of a binary CID, in one allocation: eight letters for five bytes, and `b` and seven letters at most.
fn text_of(alloc: Global, cid: &[u8]) -> Result<Txt, AllocError>
    ensures { IfOk result (λ t. t ≡ cid_text_of cid.now) }
{
    let mut text = String::with_capacity(alloc, cid.len() / 5 * 8 + 8)?;
    text.push('b')?;
    push_base32(&mut text, cid)?;
    Ok(Txt::from_string(text))
}

/// The text of a CID.
pub fn cid_text(alloc: Global, cid: &CidRef<'_>) -> Result<Txt, AllocError>
    ensures { IfOk result (λ t. t ≡ cid_text_of (cid_bytes cid.now)) }
{
    text_of(alloc, cid.whole())
}

impl BlockId {
    /// The text of the block's CID.
    pub fn text(&self, alloc: Global) -> Result<Txt, AllocError>
        ensures { IfOk result (λ t. t ≡ cid_text_of (cid_of self.now.0)) }
    {
        text_of(alloc, &self.cid())
    }
}

/// The CID whose text this is.
#[tactic(auto, using(crate::proofs::Cids::checked_cid), unfolding(crate::specs::CidTextRead::read_cid_text))]
pub fn cid_of_text(alloc: Global, text: &str) -> Result<Cid, TextErr>
    ensures read { IfOk result (λ c. read_cid_text text.now ≡ Ok c) }
    ensures spelled { IfOk result (λ c. text.now ≡ cid_text_of c) }
    ensures fault { IfErr result (λ e. (e ≡ TextErr.Memory) ⊎ (read_cid_text text.now ≡ Err e)) }
{
    let [b'b', letters @ ..] = text.as_bytes() else {
        return Err(TextErr::Prefix);
    };
    let bytes = read_base32(alloc, letters)?;
    match Cid::from_vec(bytes) {
        Ok(cid) => Ok(cid),
        Err(fault) => Err(TextErr::Cid(fault)),
    }
}
