//! What stands beneath blocks, by types.
ghost use Rattle.std.specs.Prelude.{◌≡◌, ◌<◌, length};
ghost use Rattle.ild_beneath.specs.Children.{children_of};

use ild_beneath_read::told_children;
use ild_dirty::{Beneath, Child};
use ild_schema::{Accepted, TypeNo};
use std::alloc::{AllocError, Global};

/// What stands beneath the blocks of the values of a type.
#[derive(Clone, Copy)]
pub struct ByTypes<'s> {
    acc: &'s Accepted,
    ty: TypeNo,
    ghost within: { ty.0 < length acc.now },
}

impl<'s> ByTypes<'s> {
    /// Of the values of this type.
    pub fn of(acc: &'s Accepted, ty: TypeNo) -> ByTypes<'s>
        requires { ty.0 < length acc.now }
        ensures table { result.acc.now ≡ acc.now }
        ensures of_type { result.ty ≡ ty }
    {
        ByTypes { acc, ty }
    }
}

impl<'s> Beneath for ByTypes<'s> {
    ghost children = { λ s kind block. children_of s.acc.now s.ty kind block };

    fn children(&self, alloc: Global, kind: u32, block: &[u8]) -> Result<Vec<Child>, AllocError> {
        told_children(alloc, self.acc, self.ty, kind, block)
    }
}
