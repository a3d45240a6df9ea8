//! The HAMT as mathematics: laws of tries.
#![tactic(auto)]

ghost use Rattle.ild_hamt_trie.specs.Laws.{SamePairsSameTrie, SetChangesOneSlot, RemoveChangesOneSlot, NodeTellsCollapse, ChildMeansMany, WhenSetExhausts, SetInAnyOrder};

/// A trie depends on the pairs alone.
pub fn same_pairs_same_trie()
    ensures { SamePairsSameTrie }
{}

/// One step of a set.
pub fn set_changes_one_slot()
    ensures { SetChangesOneSlot }
{}

/// One step of a removal.
pub fn remove_changes_one_slot()
    ensures { RemoveChangesOneSlot }
{}

/// Collapse is decided on the key's way.
pub fn node_tells_collapse()
    ensures { NodeTellsCollapse }
{}

/// What a child link says.
pub fn child_means_many()
    ensures { ChildMeansMany }
{}

/// When a set exhausts the levels.
pub fn when_set_exhausts()
    ensures { WhenSetExhausts }
{}

/// A set in another order of the keys.
pub fn set_in_any_order()
    ensures { SetInAnyOrder }
{}
