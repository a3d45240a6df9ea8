//! Laws of what bytes make.
ghost use Rattle.ild_run_create.specs.Laws.{MadeAreUnrefused, OneIsFirst, OneIsMade};

/// Bytes make one value of a type at most, or none for one first cause, and not both.
pub fn one_outcome()
    ensures made { OneIsMade }
    ensures unrefused { MadeAreUnrefused }
    ensures first { OneIsFirst }
{}
