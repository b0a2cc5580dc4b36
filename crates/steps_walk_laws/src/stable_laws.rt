ghost use Rattle.steps_walk_laws.specs.Stable.{ActionsCanBeWalked, NothingEarlyIsKnown, TermsCanBeEvaluated};

/// A term in order can be evaluated where each variable that it reads has a value.
pub fn evaluation_law()
    ensures { TermsCanBeEvaluated }
{}

/// Where nothing that a term reads of the state that is made comes too early, all that it reads of it is fixed.
pub fn early_law()
    ensures { NothingEarlyIsKnown }
{}

/// An action in order that has a form can be walked.
pub fn walking_law()
    ensures { ActionsCanBeWalked }
{}
