//! Laws of nodes, faults and spans.
ghost use Rattle.ild_cbor.specs.Laws.{OneTree, FaultlessAreSpelled, SpansSpell, EntriesAreParts};

/// A node stands for one tree.
pub fn one_tree()
    ensures { OneTree }
{}

/// The blocks without a fault are the spellings of trees within the limits.
pub fn faultless_are_spelled()
    ensures { FaultlessAreSpelled }
{}

/// The spelling of a part stands at the part's span.
pub fn spans_spell()
    ensures { SpansSpell }
{}

/// What stands at a key of a map is the part of that number.
pub fn entries_are_parts()
    ensures { EntriesAreParts }
{}
