//! What is wrong with the instances of a program.

ghost use Rattle.std.specs.Prelude.{◌≡◌, IfOk, Some, map, option_copied, option_map};
ghost use Rattle.names_program.specs.InUnits.{variables_in};
ghost use Rattle.names_program.specs.Standard.{brought};
ghost use Rattle.names_instances.specs.Instances.{declares, substitute_for};
ghost use Rattle.names_whole_programs.specs.Given.{declared_in, substitutes_for};
ghost use Rattle.names_whole_programs.specs.InstanceFaults.{first_instance_fault, instance_fault, is_variable, lacking, no_variable, not_a_variable, substituted_fault, unit_fault, unknown_given, without_substitute};

use crate::expanding::steps_of;
use crate::given::{declared_in, substitutes_for};
use base_core::{NoMemory, Place, Text};
use names_instances::Substitutes;
use names_program::{brought, variables};
use names_resolving::ResolveFault;
use names_scopes::Entry;
use reading_trees::{Declared, Expr, Instance, Made, Node, Program, Unit, WholeProgram, Withs};
use std::alloc::Global;

/// Whether a name is one of these that are declared.
fn declares(declared: &[&Declared], name: &Text) -> bool
    ensures { result ≡ declares (map (λ d. d.now) declared.now) name.now }
{
    for other in declared {
        if other.name == *name {
            return true;
        }
    }
    false
}

/// The first name in WITH that the module does not declare.
fn unknown_given(declared: &[&Declared], withs: &Withs) -> Result<Option<ResolveFault>, NoMemory>
    ensures { IfOk result (λ o. o ≡ unknown_given (map (λ d. d.now) declared.now) withs.now) }
{
    for with in withs.items() {
        if !declares(declared, &with.name) {
            let name = with.name.copy()?;
            return Ok(Some(ResolveFault::UnknownName(name, with.at)));
        }
    }
    Ok(None)
}

/// Whether a name has a substitute, at an instance.
fn lacking(at: Place, name: &Text, by: Option<&Expr>) -> Result<Option<ResolveFault>, NoMemory>
    ensures { IfOk result (λ o. o ≡ lacking at name.now (option_copied by.entry)) }
{
    match by {
        Some(_) => Ok(None),
        None => {
            let name = name.copy()?;
            Ok(Some(ResolveFault::NoSubstitute(name, at)))
        }
    }
}

/// The first of these that has no substitute.
fn without_substitute(
    with: &Substitutes,
    at: Place,
    declared: &[&Declared],
) -> Result<Option<ResolveFault>, NoMemory>
    ensures { IfOk result (λ o. o ≡ without_substitute with.now at (map (λ d. d.now) declared.now)) }
{
    for one in declared {
        let fault = lacking(at, &one.name, with.get(&one.name))?;
        match fault {
            Some(first) => return Ok(Some(first)),
            None => {}
        }
    }
    Ok(None)
}

/// Whether a tree is the name of one of these variables.
fn is_variable(variables: &[&Declared], tree: &Expr) -> bool
    ensures { result ≡ is_variable (map (λ d. d.now) variables.now) tree.now }
{
    match &*tree.node {
        Node::Name(name) => declares(variables, name),
        _ => false,
    }
}

/// Whether the substitute of a variable of the module is a variable.
fn no_variable(
    variables: &[&Declared],
    name: &Text,
    by: Option<&Expr>,
) -> Result<Option<ResolveFault>, NoMemory>
    ensures { IfOk result (λ o. o ≡ no_variable (map (λ d. d.now) variables.now) name.now (option_copied by.entry)) }
{
    match by {
        Some(tree) => {
            if is_variable(variables, tree) {
                return Ok(None);
            }
            let name = name.copy()?;
            Ok(Some(ResolveFault::NotAVariable(name, tree.at)))
        }
        None => Ok(None),
    }
}

/// The first of these variables of the module whose substitute is no variable.
fn not_a_variable(
    variables: &[&Declared],
    with: &Substitutes,
    own: &[&Declared],
) -> Result<Option<ResolveFault>, NoMemory>
    ensures { IfOk result (λ o. o ≡ not_a_variable (map (λ d. d.now) variables.now) with.now (map (λ d. d.now) own.now)) }
{
    for one in own {
        let fault = no_variable(variables, &one.name, with.get(&one.name))?;
        match fault {
            Some(first) => return Ok(Some(first)),
            None => {}
        }
    }
    Ok(None)
}

/// What is wrong with the substitutes of an instance.
fn substituted_fault(
    alloc: Global,
    program: &Program,
    with: &Substitutes,
    at: Place,
    declared: &[&Declared],
    module: &Program,
) -> Result<Option<ResolveFault>, NoMemory>
    ensures { IfOk result (λ o. o ≡ substituted_fault (variables_in program.now.units) with.now at (map (λ d. d.now) declared.now) (variables_in module.now.units)) }
{
    let lacks = without_substitute(with, at, declared)?;
    match lacks {
        Some(first) => Ok(Some(first)),
        None => {
            let all = variables(alloc, &program.units)?;
            let own = variables(alloc, &module.units)?;
            not_a_variable(&all, with, &own)
        }
    }
}

/// What is wrong with an instance, whose module has that program.
fn instance_fault(
    alloc: Global,
    program: &Program,
    standard: &[Entry],
    made: &Made,
    module: &Program,
) -> Result<Option<ResolveFault>, NoMemory>
    requires { standard.now ≡ brought program.now.standard }
    ensures { IfOk result (λ o. o ≡ instance_fault program.now made.now module.now) }
{
    let declared = declared_in(alloc, &module.units)?;
    let unknown = unknown_given(&declared, &made.withs)?;
    match unknown {
        Some(first) => Ok(Some(first)),
        None => {
            let with = substitutes_for(alloc, &program.units, standard, made, &declared)?;
            substituted_fault(alloc, program, &with, made.at, &declared, module)
        }
    }
}

/// What is wrong with a unit, where this is the next of the instances.
pub(crate) fn unit_fault(
    alloc: Global,
    program: &Program,
    standard: &[Entry],
    unit: &Unit,
    instance: Option<&Instance>,
) -> Result<Option<ResolveFault>, NoMemory>
    requires { standard.now ≡ brought program.now.standard }
    ensures { IfOk result (λ o. o ≡ unit_fault program.now unit.now (option_map (λ i. i.now) instance.entry)) }
{
    match unit {
        Unit::Instance(made) => match instance {
            Some(instance) => instance_fault(alloc, program, standard, made, &instance.program),
            None => Ok(None),
        },
        Unit::Variables(_) => Ok(None),
        Unit::Constants(_) => Ok(None),
        Unit::Define(_) => Ok(None),
        Unit::Recursive(_) => Ok(None),
        Unit::Assume(_) => Ok(None),
        Unit::Passed => Ok(None),
    }
}

/// The first thing that is wrong with the instances of a program, in the order of the text.
pub fn first_instance_fault(
    alloc: Global,
    whole: &WholeProgram,
) -> Result<Option<ResolveFault>, NoMemory>
    ensures { IfOk result (λ o. o ≡ first_instance_fault whole.now) }
{
    let program = &whole.program;
    let instances = whole.instances.items();
    let standard = brought(alloc, &program.standard)?;
    let mut next = 0;
    for unit in program.units.items() {
        let fault = unit_fault(alloc, program, &standard, unit, instances.get(next))?;
        match fault {
            Some(first) => return Ok(Some(first)),
            None => next += steps_of(unit),
        }
    }
    Ok(None)
}
