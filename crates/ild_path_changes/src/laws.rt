//! Laws of edits in the data of a value.
ghost use Rattle.ild_path_changes.specs.LiftLaws.{ChangesAreOneChange, EditsAreOneChange, SetIsOneChange};
ghost use Rattle.ild_path_changes.specs.Pairs.{OnePair};

/// Two lists of pairs that differ at one place differ by one change.
pub fn one_pair_is_one_change()
    ensures { OnePair }
{}

/// In the data of a value, of a front and of a whole one, the set of a part that is there is one change at a named place, and so
/// is each edit that the table allows, and each that makes a changed value.
pub fn edits_are_one_change()
    ensures there { SetIsOneChange }
    ensures each { EditsAreOneChange }
    ensures changes { ChangesAreOneChange }
{}
