//! The lines of a script on a root that names its schema, as those on the struct that it is: laws, and no code.
#![tactic(auto)]

ghost use Rattle.ild_named_replies.specs.Costs.{LinesGetAlike, LinesPutAlike};
ghost use Rattle.ild_named_replies.specs.Edits.{DataMeanAlike, EditsAreAlike, KeysAreTestedAlike, LineChangesAreAlike, ValuesAreJudgedAlike};
ghost use Rattle.ild_named_replies.specs.Lines.{LinesAreAnsweredAlike};
ghost use Rattle.ild_named_replies.specs.Replies.{ReadsAreAlike, RootsAreTold};

/// A line that reads replies on the struct, with `value` before its path, what it replies on the value.
pub fn reads_are_alike()
    ensures { ReadsAreAlike }
{}

/// The root is told alike.
pub fn roots_are_told()
    ensures { RootsAreTold }
{}

/// The schema's own types have the same texts by the table of the schema and by the longer one.
pub fn keys_are_tested_alike()
    ensures { KeysAreTestedAlike }
{}

/// Data mean the same value by both.
pub fn data_mean_alike()
    ensures { DataMeanAlike }
{}

/// The struct of a value is refused exactly where the value is, for the same cause.
pub fn values_are_judged_alike()
    ensures { ValuesAreJudgedAlike }
{}

/// A line's edit makes of the struct, with `value` before its path, the struct over what it makes of the value, before that is judged.
pub fn line_changes_are_alike()
    ensures { LineChangesAreAlike }
{}

/// What comes of it is judged alike: the edit makes the struct over the changed value, or is refused for the same cause.
pub fn edits_are_alike()
    ensures { EditsAreAlike }
{}

/// Each line is answered on the struct, with `/value` before its path, as on the value, and leaves the struct over the value that it leaves.
pub fn lines_are_answered_alike()
    ensures { LinesAreAnsweredAlike }
{}

/// Each line asks a store as often at most.
pub fn lines_get_alike()
    ensures { LinesGetAlike }
{}

/// Each line leaves a batch owing for as many puts, and makes as many, but for a commit, which keeps the block of the schema's text too.
pub fn lines_put_alike()
    ensures { LinesPutAlike }
{}
