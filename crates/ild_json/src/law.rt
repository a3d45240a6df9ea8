//! The law of the two directions.
ghost use Rattle.ild_json.specs.Law.{PrintsAndReads, NestsLittleDeeper};

/// The JSON value of a tree is read back as the tree, where no map in it has the only key `/`, and it nests at most two
/// deeper than the tree.
pub fn printed_is_read()
    ensures back { PrintsAndReads }
    ensures depth { NestsLittleDeeper }
{}
