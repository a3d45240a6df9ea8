//! A block checked as a root that names its schema, and what is told of it.
ghost use Rattle.std.specs.Prelude.{◌≡◌, ◌<◌, ℕ, List, length};
ghost use Rattle.ild_cbor.specs.Nodes.{IsRoot};
ghost use Rattle.ild_data.specs.Data.{Data};
ghost use Rattle.ild_data.specs.Spell.{id_of};
ghost use Rattle.ild_named.specs.Named.{named_data};
ghost use Rattle.ild_schema.specs.Slots.{plainly};
ghost use Rattle.ild_schema.specs.Value.{Value};
ghost use Rattle.ild_typed.specs.Fits.{Front};
ghost use Rattle.ild_view.specs.View.{IsView, slot_of, table_of};
ghost use Rattle.ild_view_named.specs.NamedBlock.{ArePartsIn, IsNamedBlock};

use crate::doc::NamedDoc;
use ild_cbor::{Node, check, known_root};
use ild_data::{BlockId, NamedBlock, Octets};
use ild_named::{NAMED_ROOM, NamedParts, named_parts};
use ild_schema::{Accepted, Slot, TypeNo};
use ild_view::{View, ViewErr};
use ild_view_doc::DocErr;
use std::alloc::Global;

// The slot of a root.
fn slot_of_type(ty: TypeNo) -> Slot
    ensures { result ≡ plainly ty }
{
    Slot {
        ty,
        nullable: false,
    }
}

impl<'s> NamedDoc<'s> {
    ghost use Rattle.ild_view_named.specs.NamedDocs.{NamedChecks, NamedDocs, block_in, table_in, type_in};

    // Whether bytes are a root block of a type.
    fn check(alloc: Global, acc: &'s Accepted, ty: TypeNo, bytes: &[u8]) -> Result<(), DocErr>
        requires { ty.0 < length acc.now }
        ensures { NamedChecks acc.now ty bytes.now result }
    {
        match check(bytes) {
            Ok(node) => match named_parts(&node) {
                Ok(parts) => match View::check(
                    alloc,
                    acc,
                    slot_of_type(ty),
                    parts.value,
                    NAMED_ROOM,
                ) {
                    Ok(_) => Ok(()),
                    Err(ViewErr::Shape { ty: _, why, at: _ }) => Err(DocErr::Shape(why)),
                    Err(ViewErr::Memory) => Err(DocErr::Memory),
                },
                Err(why) => Err(DocErr::Shape(why)),
            },
            Err(fault) => Err(DocErr::Cbor(fault)),
        }
    }

    /// The root block of a type that bytes are. The block is taken over. It is `Cbor` exactly where the bytes are no block; `Shape`
    /// where the block isn't a map of exactly the entries `type`, `value` and `schema`, with a text and the link to a block; and else
    /// where `value` has no front of the type that nests at most 95 levels, with the first cause on the walk of it.
    pub fn of(
        alloc: Global,
        acc: &'s Accepted,
        ty: TypeNo,
        block: Octets,
    ) -> Result<NamedDoc<'s>, DocErr>
        requires { ty.0 < length acc.now }
        ensures { NamedDocs acc.now ty block result }
    {
        match Self::check(alloc, acc, ty, block.as_slice()) {
            Ok(()) => Ok(NamedDoc {
                acc,
                ty,
                block: NamedBlock::of(block),
            }),
            Err(fault) => Err(fault),
        }
    }

    /// The schema.
    pub fn schema(&self) -> &'s Accepted
        ensures { result.now ≡ table_in self.now }
    {
        self.acc
    }

    /// The type.
    pub fn ty(&self) -> TypeNo
        ensures { result ≡ type_in self.now }
    {
        self.ty
    }

    /// The bytes of the block.
    pub fn block(&self) -> &[u8]
        ensures { result.now ≡ block_in self.now }
    {
        self.block.block().as_slice()
    }

    /// The id of the block.
    pub fn root(&self) -> BlockId
        ensures { result.0 ≡ id_of (block_in self.now) }
    {
        self.block.id()
    }

    /// How many levels a value may nest beneath the root.
    pub fn room(&self) -> u32
        ensures { result ≡ 95 }
    {
        NAMED_ROOM
    }

    // The item of the whole block, without work.
    fn node(&self) -> Node<'_>
        ensures { (name id : List ℕ) (t : Data) → IsNamedBlock (block_in self.now) name id t → IsRoot result (block_in self.now) (named_data name id t) }
    {
        known_root(self.block())
    }

    /// The name of the type, the data of the value, and the id of the schema's block.
    pub fn parts(&self) -> NamedParts<'_>
        ensures { (name id : List ℕ) (t : Data) → IsNamedBlock (block_in self.now) name id t → ArePartsIn name id t result }
    {
        match named_parts(&self.node()) {
            Ok(parts) => parts,
            Err(_) => unreachable!(),
        }
    }

    /// The view of the value, without work: what `of` accepted isn't read again.
    pub fn view(&self) -> View<'_>
        ensures table { table_of result ≡ table_in self.now }
        ensures slot { slot_of result ≡ plainly (type_in self.now) }
        ensures front { (name id : List ℕ) (t : Data) (f : Value) → IsNamedBlock (block_in self.now) name id t → Front (table_in self.now) 95 (plainly (type_in self.now)) f t → IsView result f }
    {
        let parts = self.parts();
        View::of(self.acc, slot_of_type(self.ty), parts.value)
    }
}
