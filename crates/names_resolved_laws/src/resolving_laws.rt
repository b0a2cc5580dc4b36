ghost use Rattle.names_resolved_laws.specs.InOrder.{ResolvedAreInOrder};

/// Where resolving gives a specification, every part of it is in order: numbers are in range, each use has its arguments, levels are as they
/// may be.
pub fn resolved_laws()
    ensures in_order { ResolvedAreInOrder }
{}
