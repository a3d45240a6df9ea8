//! Laws of long parts.
ghost use Rattle.ild_path_long.specs.LongParts.{LongPartsAreInBlocks};

/// A part that is longer than a block may be stands in a block that is too long: the value's own, or that of a node of a HAMT in it.
pub fn parts_are_in_blocks()
    ensures { LongPartsAreInBlocks }
{}
