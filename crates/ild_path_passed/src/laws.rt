//! Laws of places that are passed on.
ghost use Rattle.ild_path_passed.specs.Laws.{EditsPass, ValuesPass};

/// Each place of a changed value was there before, with the same places beneath it, or is that of a node on the way of the edit's path or
/// in the part that came.
pub fn edits_pass()
    ensures { EditsPass }
{}

/// So are those of the whole value, where the root block is given.
pub fn values_pass()
    ensures { ValuesPass }
{}
