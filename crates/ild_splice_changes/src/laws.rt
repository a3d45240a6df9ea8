//! Laws of the changes of a tree.
ghost use Rattle.ild_splice_changes.specs.Differences.{OneItem, OneKey};
ghost use Rattle.ild_splice_changes.specs.Laws.{ChangesAreSpans, ChangesNest, EntriesCome, EntriesGo, ItemsCome, ItemsGo, PartsAreSpans};
ghost use Rattle.ild_splice_changes.specs.Spliced.{ChangesAreSpliced, PartsAreNumbered};

/// A change inside a part is the change of the whole at the longer place, and the part's replacement by what it becomes.
pub fn changes_nest()
    ensures { ChangesNest }
{}

/// The spelling of a part stands in that of the whole, and a replacement changes that span alone.
pub fn parts_are_spans()
    ensures part { PartsAreSpans }
    ensures change { ChangesAreSpans }
{}

/// The part at a place by keys is the part at the place by numbers that a block's reader counts, and a change of it leaves the
/// block as it is in front of that part's span and behind it.
pub fn changes_are_spliced()
    ensures numbered { PartsAreNumbered }
    ensures spliced { ChangesAreSpliced }
{}

/// An item that is inserted is spelled at its place, behind a head that counts it.
pub fn items_come()
    ensures { ItemsCome }
{}

/// An item that is removed goes from its place, and the head doesn't count it.
pub fn items_go()
    ensures { ItemsGo }
{}

/// An entry that is inserted is spelled at the place of its key, behind a head that counts it.
pub fn entries_come()
    ensures { EntriesCome }
{}

/// An entry that is removed goes from its place, and the head doesn't count it.
pub fn entries_go()
    ensures { EntriesGo }
{}

/// Two maps that differ at one key differ by one change, and so do two lists that differ by one item.
pub fn one_place_is_one_change()
    ensures key { OneKey }
    ensures item { OneItem }
{}
