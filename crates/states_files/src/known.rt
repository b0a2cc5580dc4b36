ghost use Rattle.std.specs.Prelude.{All, IfOk};
ghost use Rattle.values_core.specs.IsValue.{IsValue};

use crate::refusal::StateRefusal;
use states_core::{Behaviour, Shown};
use values_core::Value;

/// That what is read are values.
pub(crate) fn said_values(said: &Result<Behaviour, StateRefusal>)
    ensures { IfOk said.now (λ w. All (λ x. All IsValue x.state) w) }
{
    match said {
        Ok(states) => known_values(states.items()),
        Err(_) => (),
    }
}

fn known_values(states: &[Shown])
    ensures { All (λ x. All IsValue x.state) states.now }
{
    for shown in states {
        are_values(shown.state.values());
    }
}

fn are_values(values: &[Value])
    ensures { All IsValue values.now }
{
    for value in values {
        value.is_value();
    }
}
