//! Operators and variables by their names.

ghost use Rattle.std.specs.Prelude.{◌≡◌, ◌≢◌, ◌↔◌, ◌≤◌, AllPairs, IsTrue, length, slice_get};
ghost use Rattle.names_terms.specs.Named.{IsVariable};
ghost use Rattle.steps_names.specs.Names.{operator_named, told, variable_named};
ghost use Rattle.steps_names.specs.Walks.{NamesDiffer};

use base_core::Names;
use names_term_parts::is_above;
use names_terms::{Level, Operators, Spec};
use states_core::VarId;

/// What is told of the definition with a name.
pub fn operator_named(spec: &Spec, name: &str) -> Option<(usize, usize)>
    requires differ { NamesDiffer spec.now.operators }
    ensures { result ≡ operator_named spec.now.operators name.now }
{
    match spec.operator(name) {
        Some(id) => told(&spec.operators, id.0),
        None => None,
    }
}

/// The number and how many parameters the definition there has, where its level is that of an action at most.
fn told(operators: &Operators, number: usize) -> Option<(usize, usize)>
    ensures { result ≡ told number (slice_get operators.now number) }
{
    match operators.get(number) {
        Some(operator) => {
            if is_above(operator.level, Level::Action) {
                return None;
            }
            Some((number, operator.params))
        }
        None => None,
    }
}

/// The variable with a name. The one of the number `guess` is tried first.
pub fn variable_named(spec: &Spec, name: &str, guess: usize) -> Option<VarId>
    requires few { length spec.now.variables ≤ 64 }
    requires differ { AllPairs (λ a b. a ≢ b) spec.now.variables }
    ensures { result ≡ variable_named spec.now.variables name.now }
{
    if is_named(&spec.variables, name, guess) {
        return Some(VarId(guess as u16));
    }
    spec.variable(name)
}

/// Whether the variable of that number has this name.
fn is_named(variables: &Names, name: &str, number: usize) -> bool
    ensures { IsTrue result ↔ IsVariable variables.now name.now number }
{
    match variables.get(number) {
        Some(other) => other.as_str() == name,
        None => false,
    }
}
