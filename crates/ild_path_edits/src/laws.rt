//! Laws of edits.
ghost use Rattle.ild_path_edits.specs.AlongLaws.{DepthAlong, FirstAlong, JudgedAlong, SetIsJudged};
ghost use Rattle.ild_path_edits.specs.JudgedLaws.{EditedAreStorable, JudgedInOrder, SchemasHaveTests, UnrefusedAreStorable};
ghost use Rattle.ild_path_edits.specs.EditLaws.{EditsKeepTyped, EditsKeepTypes, ElsewhereStays, LinesKeepTyped, OthersStay, SetStands};
ghost use Rattle.ild_path_edits.specs.MoveLaws.{DeleteMoves, InsertMoves, InsertedStands, LastIsChanged};
ghost use Rattle.ild_path_edits.specs.Stop.{PathFaults, StopsTell};

/// An edit of a value of a slot's type makes such a value, and of a typed value a typed one; so does the edit of a line.
pub fn edits_keep_types()
    ensures types { EditsKeepTypes }
    ensures typed { EditsKeepTyped }
    ensures lines { LinesKeepTyped }
{}

/// What was set at a path is there, and nothing changes at a path that neither begins nor continues its own: where a part is
/// replaced, and where one that is found by a name or a key is set, inserted or deleted.
pub fn edits_are_local()
    ensures there { SetStands }
    ensures replaced { ElsewhereStays }
    ensures keyed { OthersStay }
{}

/// A changed value meets no test of layers exactly where no enclosing form does, and the last holder is free of it. It nests no
/// deeper than a room exactly where the last holder fits in what is left there. So the first of hole, delimiter and depth is
/// found along the path.
pub fn changes_are_judged_along_the_path()
    ensures layers { JudgedAlong }
    ensures set { SetIsJudged }
    ensures depth { DepthAlong }
    ensures first { FirstAlong }
{}

/// Each schema has the tests that judgements ask for: whether a text is one of a key type, and whether a value fits in a room.
pub fn schemas_have_tests()
    ensures { SchemasHaveTests }
{}

/// A typed value is refused exactly where a store can't hold it, and for the first cause; so what an edit makes can be held.
pub fn judged_values_can_be_held()
    ensures held { UnrefusedAreStorable }
    ensures first { JudgedInOrder }
    ensures edits { EditedAreStorable }
{}

/// Where a path stops tells the part to which it leads, and the root of a HAMT that has to be entered on its way. An edit is refused
/// as one without a place exactly where a segment of its path has none.
pub fn stops_tell()
    ensures stops { StopsTell }
    ensures faults { PathFaults }
{}

/// The last holder of an edit's path is changed as the table of edits says, and the path leads to it as before. In a list, what is
/// inserted at a number is there, those before it stay, and those behind it move by one; so they do where an element is deleted.
pub fn elements_move()
    ensures last { LastIsChanged }
    ensures inserted { InsertMoves }
    ensures there { InsertedStands }
    ensures deleted { DeleteMoves }
{}
