ghost use Rattle.steps_ready_lines.specs.Readiness.{AssumptionsAreCounted, ResolvedAreReady, WholeAreReady};

use names_resolved_laws::resolved_laws;

/// What the search asks of a specification holds of one in order whose actions have their forms, so of what resolving gives. It has as many assumptions as its
/// program.
pub fn ready_laws()
    ensures whole { WholeAreReady }
    ensures resolved { ResolvedAreReady }
    ensures counted { AssumptionsAreCounted }
{
    resolved_laws();
}
