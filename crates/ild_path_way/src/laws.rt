//! Laws of ways.
ghost use Rattle.ild_path_way.specs.WayLaws.{BlocksStay, EditsStay, NodesSplit, NoneInOneBlock};

/// The nodes on the way of a path in two pieces are those of its pieces. In one block there are none, also behind an edit at the end of the
/// path.
pub fn ways_of_paths()
    ensures split { NodesSplit }
    ensures none { NoneInOneBlock }
    ensures parts { BlocksStay }
    ensures edits { EditsStay }
{}
