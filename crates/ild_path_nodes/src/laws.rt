//! Laws of nodes.
ghost use Rattle.ild_path_nodes.specs.NodeLaws.{NodesOfEdits, NodesOfHamts, NodesOfParts, NodesOfWholes};

/// The nodes of a part are nodes of the whole. Those of what an edit makes are nodes of the value or of the part that it brings, and where an
/// entry of a HAMT comes or goes, besides those beneath the new root.
pub fn nodes_of_changes()
    ensures parts { NodesOfParts }
    ensures wholes { NodesOfWholes }
    ensures edits { NodesOfEdits }
    ensures hamts { NodesOfHamts }
{}
