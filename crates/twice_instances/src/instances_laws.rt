ghost use Rattle.twice_instances.specs.Programs.{AmongIsInstance};
ghost use Rattle.twice_instances.specs.Rows.{InstanceRows, InstanceTerms, MadeEvaluates, MadeHolds};

use crate::seen_states_laws::seen_laws;

/// The definitions of an instance, and what trees of it mean, differ from those of its module by numbers and variables alone. So of states they say what
/// those of the module say of the states that the module sees there. It is so of an instance whose units are among those of a program with a table.
pub fn made_laws()
    ensures among { AmongIsInstance }
    ensures rows { InstanceRows }
    ensures terms { InstanceTerms }
    ensures evaluates { MadeEvaluates }
    ensures holds { MadeHolds }
{
    seen_laws();
}
