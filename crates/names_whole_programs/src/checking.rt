//! What is refused of a whole program before its names are resolved.

ghost use Rattle.std.specs.Prelude.{Bool, false, IfErr, OnOk};
ghost use Rattle.names_resolving.specs.Resolved.{HasFewVariables};
ghost use Rattle.names_whole_programs.specs.Expansion.{ExpansionRefused, IsExpandableBy};

use crate::faults::first_instance_fault;
use names_resolving::ResolveFault;
use names_tables::one_too_many;
use reading_trees::WholeProgram;
use std::alloc::Global;

/// Refuses the 65th variable.
fn check_variables(alloc: Global, whole: &WholeProgram) -> Result<(), ResolveFault>
    ensures few { OnOk result (HasFewVariables whole.now.program) }
    ensures refused { IfErr result (λ f. (wide : Bool) → ExpansionRefused wide whole.now f) }
{
    match one_too_many(alloc, &whole.program)? {
        Some(variable) => Err(ResolveFault::TooManyVariables(variable.at)),
        None => Ok(()),
    }
}

/// Refuses the first thing that is wrong with an instance.
fn check_faults(alloc: Global, whole: &WholeProgram) -> Result<(), ResolveFault>
    requires { HasFewVariables whole.now.program }
    ensures fine { OnOk result (IsExpandableBy false whole.now) }
    ensures refused { IfErr result (ExpansionRefused false whole.now) }
{
    match first_instance_fault(alloc, whole)? {
        Some(fault) => Err(fault),
        None => Ok(()),
    }
}

/// Refuses too many variables. Without `--wide` it then refuses the first thing that is wrong with the instances of a program: a name in WITH that the module
/// does not declare, a constant or variable of the module without a substitute, and a variable's substitute that is no variable. What is not refused can be
/// expanded.
pub fn check_instances(alloc: Global, wide: bool, whole: &WholeProgram) -> Result<(), ResolveFault>
    ensures fine { OnOk result (IsExpandableBy wide whole.now) }
    ensures refused { IfErr result (ExpansionRefused wide whole.now) }
{
    check_variables(alloc, whole)?;
    if wide {
        return Ok(());
    }
    check_faults(alloc, whole)
}
