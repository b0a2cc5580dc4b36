ghost use Rattle.twice_logs.specs.Logs.{FilesSayAlike, LogsAreAlike, NamesTellAlike};

use base_clock_order::order_laws;
use steps_names::name_laws;
use twice_outcomes::alike_action_laws;

/// What a text says beside two specifications that are alike is alike, and files that are alike have logs that are alike.
pub fn alike_logs_laws()
    ensures names { NamesTellAlike }
    ensures files { FilesSayAlike }
    ensures logs { LogsAreAlike }
{
    alike_action_laws();
    name_laws();
    order_laws();
}
