//! The law of roots that are entered.
ghost use Rattle.ild_open_held_roots.specs.Laws.{RootsAreEntered};

/// The root node of a HAMT that is held is that of the trie of its entries, all of which is held, and each entry has the data of its value.
pub fn roots_are_entered()
    ensures { RootsAreEntered }
{}
