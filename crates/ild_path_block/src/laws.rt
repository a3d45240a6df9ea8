//! A law for callers.
ghost use Rattle.ild_path_block.specs.Edits.{RootsAreViewed};

/// A view that `View::check` answers of the node of a whole block is one of the whole block, as `spliced` wants it.
pub fn roots_are_viewed()
    ensures { RootsAreViewed }
{}
