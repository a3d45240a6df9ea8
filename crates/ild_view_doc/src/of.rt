//! A block checked as a root, and what is told of it.
ghost use Rattle.std.specs.Prelude.{◌≡◌, ◌<◌, IfOk, length};
ghost use Rattle.ild_cbor.specs.Block.{IsBlockOf};
ghost use Rattle.ild_data.specs.Data.{Data};
ghost use Rattle.ild_data.specs.Spell.{id_of};
ghost use Rattle.ild_view_doc.specs.Block.{HasRoot, IsRootBlock};
ghost use Rattle.ild_schema.specs.Slots.{plainly};
ghost use Rattle.ild_schema.specs.Value.{Value};
ghost use Rattle.ild_view.specs.View.{IsView, slot_of, table_of};
ghost use Rattle.ild_view.specs.Whole.{IsWholeView};

use crate::doc::Doc;
use crate::fault::DocErr;
use ild_cbor::{check, known_root};
use ild_data::{BlockId, NamedBlock, Octets};
use ild_schema::{Accepted, Slot, TypeNo};
use ild_view::{View, ViewErr};
use std::alloc::{AllocError, Global};

/// How many levels a value may nest.
const ROOM: u32 = 96;

// The slot of a root.
fn slot_of_type(ty: TypeNo) -> Slot
    ensures { result ≡ plainly ty }
{
    Slot {
        ty,
        nullable: false,
    }
}

impl<'s> Doc<'s> {
    ghost use Rattle.ild_view_doc.specs.Docs.{Checks, Docs, IsSame, block_in, table_in, type_in};

    // Whether bytes are a root block of a type.
    fn check(alloc: Global, acc: &'s Accepted, ty: TypeNo, bytes: &[u8]) -> Result<(), DocErr>
        requires { ty.0 < length acc.now }
        ensures { Checks acc.now ty bytes.now result }
    {
        match check(bytes) {
            Ok(node) => match View::check(alloc, acc, slot_of_type(ty), node, ROOM) {
                Ok(_) => Ok(()),
                Err(ViewErr::Shape { ty: _, why, at: _ }) => Err(DocErr::Shape(why)),
                Err(ViewErr::Memory) => Err(DocErr::Memory),
            },
            Err(fault) => Err(DocErr::Cbor(fault)),
        }
    }

    /// The root block of a type that bytes are. The block is taken over. It is `Cbor` exactly where the bytes are no block, and
    /// `Shape` where the block has no front of the type that nests at most 96 levels, with the first cause on the walk of it.
    pub fn of(
        alloc: Global,
        acc: &'s Accepted,
        ty: TypeNo,
        block: Octets,
    ) -> Result<Doc<'s>, DocErr>
        requires { ty.0 < length acc.now }
        ensures { Docs acc.now ty block result }
    {
        match Self::check(alloc, acc, ty, block.as_slice()) {
            Ok(()) => Ok(Doc {
                acc,
                ty,
                block: NamedBlock::of(block),
            }),
            Err(fault) => Err(fault),
        }
    }

    /// A copy, which borrows the same schema.
    pub fn copy(&self) -> Result<Doc<'s>, AllocError>
        ensures { IfOk result (IsSame self.now) }
    {
        Ok(Doc {
            acc: self.acc,
            ty: self.ty,
            block: self.block.copy()?,
        })
    }

    /// The schema.
    pub fn schema(&self) -> &'s Accepted
        ensures { result.now ≡ table_in self.now }
    {
        self.acc
    }

    /// The type.
    pub fn ty(&self) -> TypeNo
        ensures { result ≡ type_in self.now }
    {
        self.ty
    }

    /// The bytes of the block.
    pub fn block(&self) -> &[u8]
        ensures { result.now ≡ block_in self.now }
    {
        self.block.block().as_slice()
    }

    /// The id of the block.
    pub fn root(&self) -> BlockId
        ensures { result.0 ≡ id_of (block_in self.now) }
    {
        self.block.id()
    }

    /// The view of the whole block, without work: what `of` accepted isn't read again.
    pub fn view(&self) -> View<'_>
        ensures table { table_of result ≡ table_in self.now }
        ensures slot { slot_of result ≡ plainly (type_in self.now) }
        ensures front { (f : Value) → IsRootBlock (table_in self.now) (type_in self.now) (block_in self.now) f → IsView result f }
        ensures whole { (t : Data) → IsBlockOf (block_in self.now) t → IsWholeView result t }
    {
        let node = known_root(self.block());
        View::of(self.acc, slot_of_type(self.ty), node)
    }

    /// Another root block of the same type takes the place of this one.
    pub fn swap(&mut self, block: NamedBlock)
        requires { ∥ HasRoot (table_in self.old) (type_in self.old) block ∥₁ }
        ensures table { table_in self.new ≡ table_in self.old }
        ensures ty { type_in self.new ≡ type_in self.old }
        ensures block { block_in self.new ≡ block }
    {
        *self = Doc {
            acc: self.acc,
            ty: self.ty,
            block,
        };
    }
}
