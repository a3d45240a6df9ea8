//! Laws of cuts.
ghost use Rattle.ild_typed_splits.specs.Splits.{CutsAreSplits, CutsArePairs};

/// A text has parts whose joints are all occurrences of the delimiter exactly where the parts that are cut from the left are joined
/// to it again; and so of pairs.
pub fn cuts_are_splits()
    ensures parts { CutsAreSplits }
    ensures pairs { CutsArePairs }
{}
