ghost use Rattle.judge_truth.specs.Faults.{FaultsStay};

use actions_form_laws::growth_law;

/// A fault that an action in order has where all variables were fixed before, it has where those were from which it has a form.
pub fn fault_law()
    ensures { FaultsStay }
{
    growth_law();
}
