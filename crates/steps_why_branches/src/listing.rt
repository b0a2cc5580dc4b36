ghost use Rattle.steps_why_branches.specs.Listings.{AddedTestsAreListed, ArmsAreListed, AssignmentsAreListed, ChangesAreListed, ChoicesOfValuesAreListed, ConjunctionsAreListed, MembersAreListed, MembershipsAreListed, NestedActionsAreListed, OneMoreTells, OpeningsAreListed, PartsAreListed, TestsAreListed};

/// The branches of an action that is a test or says a variable's value.
pub fn leaf_lists()
    ensures tests { TestsAreListed }
    ensures assignments { AssignmentsAreListed }
    ensures memberships { MembershipsAreListed }
    ensures choices { ChoicesOfValuesAreListed }
    ensures nested { NestedActionsAreListed }
{}

/// How the branches of an action are put together of those of its parts.
pub fn part_lists()
    ensures members { MembersAreListed }
    ensures arms { ArmsAreListed }
    ensures parts { PartsAreListed }
    ensures conjunctions { ConjunctionsAreListed }
    ensures tests { AddedTestsAreListed }
{}

/// The branches of an action that is taken apart.
pub fn opening_lists()
    ensures openings { OpeningsAreListed }
    ensures changes { ChangesAreListed }
{}

/// Whether there are more branches than are listed.
pub fn cut_law()
    ensures more { OneMoreTells }
{}
