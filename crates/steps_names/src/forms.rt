//! Whether an operator has a form where the variables of updates are fixed before it.

ghost use Rattle.std.specs.Prelude.{◌≡◌, ◌≤◌, IfOk, MatchBool, MatchOption};
ghost use Rattle.steps_lines_defs.specs.Asks.{updated};
ghost use Rattle.actions_early_reads.specs.Sets.{shown};
ghost use Rattle.steps_names.specs.Names.{AreOf};
ghost use Rattle.steps_names.specs.Walks.{HasForm, HasNoName, IsBodyInOrder, IsNamedBody};

use actions_early_reads::{Walk, none, with_any};
use actions_forms::{fixed_within, form_laws};
use actions_meanings::FormFault;
use base_core::NoMemory;
use logs_updates::Updates;
use names_terms::{Operators, Term};
use states_core::VarSet;
use std::alloc::AllocError;

/// The variables that updates change, or none where one of them is not of so many variables.
pub fn updated(variables: usize, updates: &Updates) -> Option<VarSet>
    requires few { variables ≤ 64 }
    ensures { MatchOption result (¬ AreOf variables updates.now) (λ set. AreOf variables updates.now × (shown set ≡ updated updates.now)) }
{
    let all = updates.items();
    let mut set = none();
    for update in all {
        let variable = update.path.variable().0;
        if variable as usize >= variables {
            return None;
        }
        set = with_any(set, variable);
    }
    Some(set)
}

/// The body of the definition of that number, if it has a name.
pub fn named_body(operators: &Operators, number: usize) -> Option<&Term>
    ensures { MatchOption result (HasNoName operators.now number) (λ body. IsNamedBody operators.now number body.now) }
{
    match operators.get(number) {
        Some(operator) => {
            if operator.name.as_str().is_empty() {
                return None;
            }
            Some(&operator.body)
        }
        None => None,
    }
}

/// Whether a body that uses definitions below a bound alone has a form where these variables are fixed before it.
pub fn has_form<'a>(
    walk: &Walk<'a>,
    bound: usize,
    body: &'a Term,
    before: VarSet,
) -> Result<bool, NoMemory>
    requires { IsBodyInOrder walk.now bound body.now }
    ensures { IfOk result (λ b. MatchBool b (HasForm walk.now body.now (shown before)) (¬ HasForm walk.now body.now (shown before))) }
{
    form_laws();
    match fixed_within(walk, bound, body, before) {
        Ok(_) => Ok(true),
        Err(FormFault::PrimeTooEarly(_, _)) => Ok(false),
        Err(FormFault::NotFixed(_, _)) => Ok(false),
        Err(FormFault::NoMemory) => Err(AllocError),
    }
}
