ghost use Rattle.steps_names.specs.Laws.{OperatorsAreTold, VariablesAreTold};

/// Operators are told just where definitions with their names may be actions, and variables just where they have the names.
pub fn name_laws()
    ensures operators { OperatorsAreTold }
    ensures variables { VariablesAreTold }
{}
