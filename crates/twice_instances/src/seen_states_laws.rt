ghost use Rattle.twice_instances.specs.SeenStates.{InstanceDescribes, InstanceEvaluates, InstanceHolds};

/// A term of an instance says of a state what the term of its module, which differs by variables and numbers alone, says of the state that the module sees
/// there: its value and its faults, the set that it describes, and whether it holds of two states as an action.
pub fn seen_laws()
    ensures evaluates { InstanceEvaluates }
    ensures describes { InstanceDescribes }
    ensures holds { InstanceHolds }
{}
