//! Ways of indices from the root of a HAMT to a node beneath it.
ghost use Rattle.std.specs.Prelude.{◌≡◌, ◌++◌, ◌∷◌, [], IfOk};

use std::alloc::{AllocError, Global};

/// The way to the child at an index of the node at the end of a way.
pub fn longer(alloc: Global, way: &[u8], i: u8) -> Result<Vec<u8>, AllocError>
    ensures { IfOk result (λ w. w.items ≡ way.now ++ i ∷ []) }
{
    let mut longer = way.to_vec(alloc)?;
    longer.push(i)?;
    Ok(longer)
}
