//! Laws for callers.
ghost use Rattle.ild_splice.specs.Laws.{ChangesStayWithin, EntriesAreAt, ItemsAreAt, RootsAreAt};

/// The node of a whole block is its tree, and the node of an item or of an entry's value is the part one step further.
pub fn nodes_are_at_places()
    ensures root { RootsAreAt }
    ensures item { ItemsAreAt }
    ensures entry { EntriesAreAt }
{}

/// A changed tree that is no longer than a block may be is a block's tree again, unless what is put in nests too deep: a new
/// part at a place of so many steps may have 96 less so many containers inside one another, and a new item or entry one less.
pub fn changes_stay_within()
    ensures { ChangesStayWithin }
{}
