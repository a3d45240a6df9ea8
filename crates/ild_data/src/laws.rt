//! Laws of CIDs, of their texts and of spellings, which hold of the definitions that the calls meet.
ghost use Rattle.std.specs.Prelude.{◌≡◌, true, List, ℕ, ◌↔◌, Ok, length};
ghost use Rattle.ild_data.specs.Bytes.{AreBytes};
ghost use Rattle.ild_data.specs.Cid.{CidOf, IsCid};
ghost use Rattle.ild_data.specs.CidRead.{CidParts, read_cid, cid_parts, is_cid};
ghost use Rattle.ild_data.specs.CidText.{cid_text_of};
ghost use Rattle.ild_data.specs.CidTextRead.{read_cid_text};
ghost use Rattle.ild_data.specs.Spell.{cid_of};
ghost use Rattle.ild_data.specs.Spellings.{OneSpelling, OneMeaning};

/// The reading rules read exactly the CIDs of the grammar (CIDv1, unsigned-varint), each with its parts.
pub fn cids_are_read()
    ensures sound { (s : List ℕ) (p : CidParts) → read_cid s ≡ Ok p → CidOf s p.codec p.hash p.digest }
    ensures complete { (s : List ℕ) (codec hash : ℕ) (digest : List ℕ) → CidOf s codec hash digest → read_cid s ≡ Ok (record { codec = codec; hash = hash; digest = digest }) }
    ensures parts { (s : List ℕ) (codec hash : ℕ) (digest : List ℕ) → CidOf s codec hash digest → cid_parts s ≡ record { codec = codec; hash = hash; digest = digest } }
    ensures test { (s : List ℕ) → is_cid s ≡ true ↔ IsCid s }
    ensures block { (id : List ℕ) → length id ≡ 32 → IsCid (cid_of id) }
{}

/// A CID's text is read as that CID, and nothing but the texts of CIDs is read.
pub fn texts_are_read()
    ensures back { (s : List ℕ) → IsCid s → AreBytes s → read_cid_text (cid_text_of s) ≡ Ok s }
    ensures only { (t s : List ℕ) → read_cid_text t ≡ Ok s → IsCid s × (t ≡ cid_text_of s) }
{}

/// No spelling begins another, and two trees have two spellings.
pub fn spellings_are_apart()
    ensures prefix { OneSpelling }
    ensures injective { OneMeaning }
{}
