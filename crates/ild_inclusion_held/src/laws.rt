//! The laws of what proofs say.
ghost use Rattle.ild_inclusion_held.specs.Laws.{ProofsHold, ValuesAnswer};

/// What blocks say of a path, each value of the type answers whose root block has the root's id, without a store; or one of the blocks and one
/// of the value's own are two with one id.
pub fn values_answer()
    ensures { ValuesAnswer }
{}

/// What blocks say of a path, each value answers that stands under the root, whatever store holds it; or one of the blocks and one that the
/// store holds are two with one id.
pub fn proofs_hold()
    ensures { ProofsHold }
{}
