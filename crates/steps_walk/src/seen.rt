//! What is seen of a variable, where all that is seen is sorted by variable.

ghost use Rattle.std.specs.Prelude.{◌≡◌, ◌≤◌, ◌<◌, ℕ, IsTrue, length};
ghost use Rattle.std.specs.List.{AllWithin};
ghost use Rattle.std.specs.List.Sorted.{IsNonDecreasingBy};
ghost use Rattle.steps_walk.specs.Seen.{TellsOf};

use logs_updates::See;
use states_core::VarId;

/// Whether it is sorted by variable.
pub fn are_sorted(sees: &[See]) -> bool
    ensures { IsTrue result → IsNonDecreasingBy (λ see. see.path.variable.0) sees.now }
{
    let mut least = 0;
    for see in sees {
        let variable = variable_of(see);
        if variable < least {
            return false;
        }
        least = variable;
    }
    true
}

fn variable_of(see: &See) -> u16
    ensures { result ≡ see.now.path.variable.0 }
{
    see.path.variable().0
}

/// What is seen of the variable.
pub fn of_sorted(sees: &[See], number: VarId) -> &[See]
    requires { IsNonDecreasingBy (λ see. see.path.variable.0) sees.now }
    ensures { TellsOf number.0 sees.now result.now }
{
    let first = from_variable(sees, number.0);
    let rest = &sees[first..];
    let count = up_to_variable(rest, number.0);
    &rest[..count]
}

/// The index of the first thing that is seen of the variable or one behind it.
fn from_variable(sees: &[See], number: u16) -> usize
    requires { IsNonDecreasingBy (λ see. see.path.variable.0) sees.now }
    ensures within { result ≤ length sees.now }
    ensures before { AllWithin (λ see. see.path.variable.0 < number) sees.now 0 result }
{
    sees.partition_point(|see| variable_of(see) < number)
}

/// The index of the first thing that is seen of a variable behind this one.
fn up_to_variable(sees: &[See], number: u16) -> usize
    requires { IsNonDecreasingBy (λ see. see.path.variable.0) sees.now }
    ensures within { result ≤ length sees.now }
    ensures behind { AllWithin (λ see. number < see.path.variable.0) sees.now result (length sees.now) }
{
    sees.partition_point(|see| variable_of(see) <= number)
}
