//! Laws of the blocks that a build puts.
ghost use Rattle.ild_bulk.specs.Laws.{PlanIsOfNodes, ChildrenFirst};

/// The blocks that are put are those of the nodes beneath.
pub fn plan_is_of_nodes()
    ensures { PlanIsOfNodes }
{}

/// Each of them stands behind its children.
pub fn children_first()
    ensures { ChildrenFirst }
{}
