ghost use Rattle.steps_why_branches.specs.Repaired.{ButNothing};
ghost use Rattle.steps_why_branches.specs.Told.{BranchesSay, NothingIsSpared, OnePlaceIsEach, PartsSay};

/// What is told of each branch of an action, and of parts that must all hold: each part before the named one holds at every state that extends what is
/// filled then, one that was passed over at none, and the named part at none, unless it ended by a fault; where all was gone through and nothing passed
/// over, the action, or each part, holds at every such state, and where some was, it would hold if that did. Where nothing may be passed over, nothing is.
pub fn reason_law()
    ensures actions { BranchesSay }
    ensures parts { PartsSay }
    ensures nothing { NothingIsSpared }
    ensures holds { ButNothing }
{}

/// The branches that go through all parts where those at one place may be passed over, whichever that is, are those that do where none may be, and for
/// each place those that do where the parts there may be.
pub fn near_law()
    ensures { OnePlaceIsEach }
{}
