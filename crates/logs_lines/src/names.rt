ghost use Rattle.std.specs.Prelude.{◌≡◌, IfOk, MatchBool};
ghost use Rattle.logs_lines.specs.Setting.{Setting};

use base_core::NoMemory;
use logs_updates::Updates;
use states_core::VarId;

/// What a reader of logs asks of a specification.
pub trait SpecNames {
    ghost setting: { Self → Setting };

    /// The number of the operator of level at most 2 with this name, and how many parameters it has.
    fn operator(&self, name: &str) -> Option<(usize, usize)>
        ensures { result ≡ (setting self.now).operator name.now };

    /// The variable with this name. The one of the number `guess` is tried first.
    fn variable(&self, name: &str, guess: usize) -> Option<VarId>
        ensures { result ≡ (setting self.now).variable name.now };

    /// Whether the operator has a form where the variables of the updates are fixed before it.
    fn has_form(&self, operator: usize, updates: &Updates) -> Result<bool, NoMemory>
        ensures { IfOk result (λ b. MatchBool b ((setting self.now).HasForm operator updates.now) (¬ (setting self.now).HasForm operator updates.now)) };
}
