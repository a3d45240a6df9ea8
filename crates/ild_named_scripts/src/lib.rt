//! A whole script on a root that names its schema, as that on the struct that it is: laws, and no code.
#![tactic(auto)]

ghost use Rattle.ild_named_scripts.specs.Adds.{LinesAddAlike, LinesPutOneMore, ScriptsMayAlike};
ghost use Rattle.ild_named_scripts.specs.Children.{LinesLeadAlike};
ghost use Rattle.ild_named_scripts.specs.Scripts.{ScriptsAreAnsweredAlike};
ghost use Rattle.ild_named_scripts.specs.Tests.{StructsAreTested};

/// Tests by the longer table are made of tests by the schema's own.
pub fn structs_are_tested()
    ensures { StructsAreTested }
{}

/// The lines of a script are answered plainly on the struct, with `/value` before their paths, as they are on the value: reply by reply, and
/// what is left is the struct over what is left of the value.
pub fn scripts_are_answered_alike()
    ensures { ScriptsAreAnsweredAlike }
{}

/// Each line may add the blocks that it may add to the struct, and that of the schema's text.
pub fn lines_add_alike()
    ensures { LinesAddAlike }
{}

/// It puts as many at most, or one more.
pub fn lines_put_one_more()
    ensures { LinesPutOneMore }
{}

/// Their children are the same, but for the schema's text.
pub fn lines_lead_alike()
    ensures { LinesLeadAlike }
{}

/// A whole script may put the blocks that it may put on the struct, and that of the schema's text, and it may begin a
/// batch where it may on the struct.
pub fn scripts_may_alike()
    ensures { ScriptsMayAlike }
{}
