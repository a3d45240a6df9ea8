//! Laws of nodes.
ghost use Rattle.ild_node.specs.Laws.{OneNode, WrittenAreRead};

/// The data of a node tell its slots.
pub fn one_node()
    ensures { OneNode }
{}

/// What is written as a node, and is no longer than a block may be, is a block, and read as that node alone.
pub fn written_are_read()
    ensures { WrittenAreRead }
{}
