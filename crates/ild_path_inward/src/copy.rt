//! Paths made of some of a path's segments.
ghost use Rattle.std.specs.Prelude.{◌≡◌, IfOk};

use ild_data::{Path, Txt};
use std::alloc::{AllocError, Global};

/// The path of some segments.
pub(crate) fn path_of(alloc: Global, segments: &[Txt]) -> Result<Path, AllocError>
    ensures { IfOk result (λ p. p ≡ segments.now) }
{
    let mut copies = Vec::new(alloc);
    for segment in segments {
        copies.push(segment.copy()?)?;
    }
    Ok(Path::from_vec(copies))
}
