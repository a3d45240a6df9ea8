//! Laws of what proofs say.
ghost use Rattle.ild_inclusion.specs.Laws.{ProofsSayOneThing};

/// Blocks say one thing of a path, or one thing is wrong first, and not both.
pub fn proofs_say_one_thing()
    ensures { ProofsSayOneThing }
{}
