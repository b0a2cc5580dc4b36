ghost use Rattle.actions_forms.specs.Laws.{HasFormOutcome, HasOneFormOutcome};

/// A term has one outcome as an action, however many levels of terms are allowed.
pub fn form_laws()
    ensures one { HasOneFormOutcome }
    ensures some { HasFormOutcome }
{}
