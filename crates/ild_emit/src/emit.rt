//! A buffer of spellings.
ghost use Rattle.std.specs.Prelude.{◌≡◌, ◌++◌, ◌<◌, [], length, IfOk, OnOk, OnErr};
ghost use Rattle.ild_cbor.specs.Nodes.{HasData};
ghost use Rattle.ild_data.specs.Data.{Data};
ghost use Rattle.ild_data.specs.Spell.{head, spell, spell_int, spell_text, spell_bytes, spell_link, cid_of};

use crate::head::{add_head, add_string};
use crate::tree::{add_int, add_simple, add_whole_link, add_whole_tree};
use ild_cbor::Node;
use ild_data::{BlockId, CidRef, Int, Octets, Tree};
use std::alloc::{AllocError, Global};
use std::marker::Model;

/// A buffer of DAG-CBOR spellings, one behind the other.
#[derive(Drop)]
pub struct Emit {
    out: Vec<u8>,
}

impl Model for Emit {
    ghost use Rattle.std.specs.Prelude.{List, ℕ};

    ghost Value = { List ℕ };

    ghost view = { λ a. a.out.items };
}

impl Emit {
    ghost use Rattle.ild_data.specs.CidView.{cid_bytes};
    ghost use Rattle.ild_data.specs.Seen.{data_of};
    ghost use Rattle.ild_emit.specs.Simple.{simple_data};

    /// Nothing yet.
    pub fn new(alloc: Global) -> Emit
        ensures { result ≡ [] }
    {
        Emit {
            out: Vec::new(alloc),
        }
    }

    /// Nothing yet, with room for so many bytes.
    pub fn with_room(alloc: Global, room: usize) -> Result<Emit, AllocError>
        ensures { IfOk result (λ out. out ≡ []) }
    {
        let mut out = Vec::new(alloc);
        out.reserve(room)?;
        Ok(Emit { out })
    }

    /// How many bytes were written.
    pub fn len(&self) -> usize
        ensures { result ≡ length self.now }
    {
        self.out.len()
    }

    /// Appends the shortest head of a major type (RFC 8949, section 3), or leaves the buffer unchanged.
    pub fn head(&mut self, major: u8, n: u64) -> Result<(), AllocError>
        requires { major < 6 }
        ensures ok { OnOk result (self.new ≡ self.old ++ head major n) }
        ensures err { OnErr result (self.new ≡ self.old) }
    {
        add_head(&mut self.out, major, n)
    }

    /// Appends an integer, or leaves the buffer unchanged.
    #[inline(always)]
    pub fn int(&mut self, n: Int) -> Result<(), AllocError>
        ensures ok { OnOk result (self.new ≡ self.old ++ spell_int n) }
        ensures err { OnErr result (self.new ≡ self.old) }
    {
        add_int(&mut self.out, n)
    }

    /// Appends a text, or leaves the buffer unchanged.
    #[inline(always)]
    pub fn text(&mut self, s: &str) -> Result<(), AllocError>
        ensures ok { OnOk result (self.new ≡ self.old ++ spell_text s.now) }
        ensures err { OnErr result (self.new ≡ self.old) }
    {
        add_string(&mut self.out, 3, s.as_bytes())
    }

    /// Appends a byte string, or leaves the buffer unchanged.
    pub fn bytes(&mut self, b: &[u8]) -> Result<(), AllocError>
        ensures ok { OnOk result (self.new ≡ self.old ++ spell_bytes b.now) }
        ensures err { OnErr result (self.new ≡ self.old) }
    {
        add_string(&mut self.out, 2, b)
    }

    /// Appends a link (DAG-CBOR, "Links"), or leaves the buffer unchanged.
    pub fn link(&mut self, cid: &CidRef<'_>) -> Result<(), AllocError>
        ensures ok { OnOk result (self.new ≡ self.old ++ spell_link (cid_bytes cid.now)) }
        ensures err { OnErr result (self.new ≡ self.old) }
    {
        add_whole_link(&mut self.out, cid.whole())
    }

    /// Appends the link to a block, or leaves the buffer unchanged.
    pub fn block_link(&mut self, id: &BlockId) -> Result<(), AllocError>
        ensures ok { OnOk result (self.new ≡ self.old ++ spell_link (cid_of id.now.0)) }
        ensures err { OnErr result (self.new ≡ self.old) }
    {
        add_whole_link(&mut self.out, &id.cid())
    }

    /// Appends a truth value, or null for `None`, or leaves the buffer unchanged.
    pub fn simple(&mut self, b: Option<bool>) -> Result<(), AllocError>
        ensures ok { OnOk result (self.new ≡ self.old ++ spell (simple_data b)) }
        ensures err { OnErr result (self.new ≡ self.old) }
    {
        add_simple(&mut self.out, b)
    }

    /// Appends a tree, or leaves the buffer unchanged.
    pub fn tree(&mut self, tree: &Tree) -> Result<(), AllocError>
        ensures ok { OnOk result (self.new ≡ self.old ++ spell (data_of tree.now)) }
        ensures err { OnErr result (self.new ≡ self.old) }
    {
        add_whole_tree(&mut self.out, tree)
    }

    /// Appends the spelling of a node, copied from its block, or leaves the buffer unchanged.
    pub fn node(&mut self, node: &Node<'_>) -> Result<(), AllocError>
        ensures ok { (t : Data) → HasData node.now t → OnOk result (self.new ≡ self.old ++ spell t) }
        ensures err { OnErr result (self.new ≡ self.old) }
    {
        self.out.extend_from_slice(node.spelling())?;
        Ok(())
    }

    /// Appends bytes that are spellings already, or leaves the buffer unchanged.
    pub fn spelled(&mut self, piece: &[u8]) -> Result<(), AllocError>
        ensures ok { OnOk result (self.new ≡ self.old ++ piece.now) }
        ensures err { OnErr result (self.new ≡ self.old) }
    {
        self.out.extend_from_slice(piece)?;
        Ok(())
    }

    /// The bytes that were written.
    pub fn finish(self) -> Octets
        ensures { result ≡ self }
    {
        Octets::from_vec(self.out)
    }
}
