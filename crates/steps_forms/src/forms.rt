//! The forms of Init, of Next and of the operator of the steps that no line shows.

ghost use Rattle.std.specs.Prelude.{length};
ghost use Rattle.names_term_parts.specs.Slots.{MentionsBelow};
ghost use Rattle.steps_lines_defs.specs.Says.{setting};
ghost use Rattle.actions_early_reads.specs.Orderly.{IsSoundThroughout};
ghost use Rattle.names_specification_laws.specs.IsSpec.{IsSpec};
ghost use Rattle.steps_forms.specs.Forms.{FormsSay, SilentSays, WholeSays};

use actions_early_reads::none;
use actions_form_laws::{operator_law, sound_law};
use actions_forms::{fixed, whole};
use actions_meanings::{FormFault, Which};
use names_terms::{Spec, Term};
use std::alloc::Global;

/// Whether the term fixes every variable, run where nothing is fixed; or what is wrong with it.
fn whole_form(alloc: Global, which: Which, spec: &Spec, term: &Term) -> Result<(), FormFault>
    requires ordered { IsSpec spec.now }
    requires below { MentionsBelow (length spec.now.operators) term.now }
    requires orderly { IsSoundThroughout spec.now.operators (length spec.now.variables) term.now }
    ensures { WholeSays (setting which spec.now) term.now result }
{
    let variables = spec.variables.len() as u16;
    match whole(alloc, which, variables, &spec.operators, term, none()) {
        Ok(_) => Ok(()),
        Err(fault) => Err(fault),
    }
}

/// Whether the operator of the steps that no line shows, where there is one, has a form; or what is wrong with it.
fn silent_form(alloc: Global, spec: &Spec) -> Result<(), FormFault>
    requires { IsSpec spec.now }
    ensures { SilentSays spec.now result }
{
    operator_law();
    let Some(number) = spec.silent else {
        return Ok(());
    };
    let variables = spec.variables.len() as u16;
    match spec.operators.get(number.0) {
        None => unreachable!(),
        Some(operator) => match fixed(
            alloc,
            Which::Action,
            variables,
            &spec.operators,
            &operator.body,
            none(),
        ) {
            Ok(_) => Ok(()),
            Err(fault) => Err(fault),
        },
    }
}

/// Whether Init and Next of a specification fix every variable, and the operator of the steps that no line shows has a form, where there is one; or the first
/// thing that is wrong, of Init, then of Next, then of that operator.
pub fn whole_forms(alloc: Global, spec: &Spec) -> Result<(), FormFault>
    requires { IsSpec spec.now }
    ensures { FormsSay spec.now result }
{
    sound_law();
    match whole_form(alloc, Which::Init, spec, &spec.init) {
        Ok(()) => match whole_form(alloc, Which::Action, spec, &spec.next) {
            Ok(()) => silent_form(alloc, spec),
            Err(fault) => Err(fault),
        },
        Err(fault) => Err(fault),
    }
}
