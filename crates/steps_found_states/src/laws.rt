ghost use Rattle.steps_found_states.specs.Laws.{AssignmentsAreFound, ChangesAreFound, ChoicesAreFound, ChoicesOfValuesAreFound, ConjunctionsAreFound, EmptyPlacesFillNone, ListedValuesAreGiven, MembersAreTested, NestedActionsAreFaults, OpeningsAreFound, PartsAreGrounded, PlacesAreWalked, SeenValuesAreGiven, TestsAreFound, ValuesAreGiven, WalksAreGrounded};

/// What walking an action finds that is a test or says a variable's value.
pub fn simple_laws()
    ensures tests { TestsAreFound }
    ensures assignments { AssignmentsAreFound }
    ensures choices { ChoicesOfValuesAreFound }
    ensures nested { NestedActionsAreFaults }
{}

/// Which places give a variable a value.
pub fn value_laws()
    ensures values { ValuesAreGiven }
    ensures members { MembersAreTested }
    ensures listed { ListedValuesAreGiven }
    ensures seen { SeenValuesAreGiven }
{}

/// What walking an action finds that is taken apart, and what the walk of its parts rests on.
pub fn part_laws()
    ensures openings { OpeningsAreFound }
    ensures grounds { PartsAreGrounded }
    ensures changes { ChangesAreFound }
{}

/// How what the parts find is put together.
pub fn joining_laws()
    ensures choices { ChoicesAreFound }
    ensures conjunctions { ConjunctionsAreFound }
    ensures places { PlacesAreWalked }
{}

/// What the walk of an action rests on.
pub fn ground_law()
    ensures grounds { WalksAreGrounded }
    ensures first { EmptyPlacesFillNone }
{}
