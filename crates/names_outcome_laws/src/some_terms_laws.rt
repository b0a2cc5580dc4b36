ghost use Rattle.names_outcome_laws.specs.Trees.{TreesMeanSomething};

/// Some term is meant by each tree in which nothing is wrong with names.
pub fn tree_law()
    ensures { TreesMeanSomething }
{}
