//! The representation at a view.
ghost use Rattle.std.specs.Prelude.{◌≡◌, IfOk, Some, true};
ghost use Rattle.ild_data.specs.Data.{Data};
ghost use Rattle.ild_data.specs.Seen.{data_of};
ghost use Rattle.ild_schema.specs.Value.{Value};
ghost use Rattle.ild_typed.specs.Fields.{is_scalar};
ghost use Rattle.ild_typed.specs.Hamt.{alone};
ghost use Rattle.ild_typed.specs.Represented.{represented};

use crate::body::Body;
use crate::view::View;
use ild_data::Tree;
use ild_schema::Scalar;
use ild_view_tree::piece_tree;
use std::alloc::{AllocError, Global};

// The tree of a scalar.
fn scalar_tree(scalar: &Scalar) -> Result<Tree, AllocError>
    ensures { IfOk result (λ tree. (t : Data) → is_scalar scalar.now t ≡ true → data_of tree ≡ t) }
{
    match scalar {
        Scalar::Bool(value) => Ok(Tree::Bool(*value)),
        Scalar::Int(value) => Ok(Tree::Int(*value)),
        Scalar::Text(value) => Ok(Tree::Text(value.copy()?)),
    }
}

impl<'b> View<'b> {
    ghost use Rattle.ild_view.specs.View.{IsView, slot_of, table_of};

    /// The representation at this place; of a HAMT it is the root alone, and of a field that the block leaves out the value that
    /// stands for it.
    pub fn rep(&self, alloc: Global) -> Result<Tree, AllocError>
        ensures { IfOk result (λ tree. (f : Value) → IsView self.now f → represented alone (table_of self.now) (slot_of self.now) f ≡ Some (data_of tree)) }
    {
        match &self.body {
            Body::Held(piece) => piece_tree(alloc, self.acc, piece),
            Body::Implicit(scalar) => scalar_tree(scalar),
        }
    }
}
