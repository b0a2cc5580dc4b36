//! A program in which every name means something.

ghost use Rattle.std.specs.Prelude.{◌≡◌, ℕ, List, IfOk, IfErr, OnOk, Option, Err, length};
ghost use Rattle.values_core.specs.Data.{Val};
ghost use Rattle.names_terms.specs.Lists.{terms_list};
ghost use Rattle.reading_trees.specs.declared.config.Config.{Config as Configuration};
ghost use Rattle.names_scopes.specs.Standing.{AreIn};
ghost use Rattle.base_use_order.specs.Uses.{table_of};
ghost use Rattle.names_program.specs.InUnits.{definitions_in};
ghost use Rattle.names_program.specs.Names.{AreNames, by_index, numbers_of};
ghost use Rattle.names_tables.specs.NameFaults.{HasFineNames};
ghost use Rattle.names_tables.specs.UnitComplaints.{AreUses};
ghost use Rattle.names_tables.specs.Values.{AreSpelled, AreValues, HasAllValues};
ghost use Rattle.names_resolving.specs.Resolved.{Answers, HasFewVariables, IsNamed};
ghost use Rattle.names_resolving.specs.Standing.{AreBelow};

use crate::fault::{ResolveFault, of_name};
use base_core::NoMemory;
use names_program::program_names;
use names_scopes::ProgramNames;
use names_tables::{
    Table, assumption_terms, constant_values, first_name_fault, first_without_value, one_too_many,
    program_table,
};
use names_terms::Terms;
use names_uses::uses;
use reading_trees::{Config, Program};
use std::alloc::Global;
use values_core::Value;

/// The table of a program's definitions, and what is assumed.
#[derive(Drop)]
pub(crate) struct Named {
    pub table: Table,
    pub assumes: Terms,
}

/// Refuses the 65th variable.
fn check_variables(alloc: Global, program: &Program) -> Result<(), ResolveFault>
    ensures few { OnOk result (HasFewVariables program.now) }
    ensures refused { IfErr result (λ f. (c : Configuration) (silent : Option (List ℕ)) → Answers program.now c silent (Err f)) }
{
    match one_too_many(alloc, program)? {
        Some(variable) => Err(ResolveFault::TooManyVariables(variable.at)),
        None => Ok(()),
    }
}

/// Refuses the first name that means nothing.
fn check_names(
    alloc: Global,
    program: &Program,
    config: &Config,
    names: &ProgramNames,
    uses: &[Vec<usize>],
) -> Result<(), ResolveFault>
    requires are { (values : List Val) × AreNames program.now config.now values by_index names.now }
    requires known { AreIn (length (definitions_in program.now.units)) names.now }
    requires used { AreUses program.now config.now (table_of uses.now) }
    requires few { HasFewVariables program.now }
    ensures fine { OnOk result (HasFineNames program.now config.now) }
    ensures refused { IfErr result (λ f. (silent : Option (List ℕ)) → Answers program.now config.now silent (Err f)) }
{
    match first_name_fault(alloc, program, config, names, uses)? {
        Some(fault) => {
            let refusal = of_name(alloc, &program.units, fault)?;
            Err(refusal)
        }
        None => Ok(()),
    }
}

/// Refuses the first constant for which the configuration gives nothing.
fn check_values(alloc: Global, program: &Program, config: &Config) -> Result<(), ResolveFault>
    requires few { HasFewVariables program.now }
    requires fine { HasFineNames program.now config.now }
    ensures valued { OnOk result (HasAllValues program.now config.now) }
    ensures refused { IfErr result (λ f. (silent : Option (List ℕ)) → Answers program.now config.now silent (Err f)) }
{
    match first_without_value(alloc, program, config)? {
        Some(constant) => Err(ResolveFault::NoValue(constant.name.copy()?, constant.at)),
        None => Ok(()),
    }
}

/// The table of a program whose names are fine, and what is assumed.
fn tabled(
    alloc: Global,
    program: &Program,
    config: &Config,
    values: &[Value],
    names: &ProgramNames,
    uses: &[Vec<usize>],
) -> Result<Named, NoMemory>
    requires few { HasFewVariables program.now }
    requires fine { HasFineNames program.now config.now }
    requires valued { HasAllValues program.now config.now }
    requires spelled { AreValues program.now config.now values.now }
    requires are { AreNames program.now config.now values.now by_index names.now }
    requires known { AreIn (length (definitions_in program.now.units)) names.now }
    requires used { AreUses program.now config.now (table_of uses.now) }
    ensures named { IfOk result (λ n. IsNamed program.now config.now values.now (numbers_of n.table.numbers.items) n.table.operators (terms_list n.assumes)) }
    ensures below { IfOk result (λ n. AreBelow (length n.table.operators) n.assumes) }
{
    let mut table = program_table(alloc, program, config, names, uses)?;
    let assumes = assumption_terms(alloc, program, config, &mut table)?;
    Ok(Named { table, assumes })
}

/// The table of a program and what is assumed, or the first name that means nothing or constant that has no value.
pub(crate) fn name_program(
    alloc: Global,
    program: &Program,
    config: &Config,
) -> Result<Named, ResolveFault>
    requires { AreSpelled config.now.givens }
    ensures named { IfOk result (λ n. (values : List Val) × IsNamed program.now config.now values (numbers_of n.table.numbers.items) n.table.operators (terms_list n.assumes)) }
    ensures below { IfOk result (λ n. AreBelow (length n.table.operators) n.assumes) }
    ensures refused { IfErr result (λ f. (silent : Option (List ℕ)) → Answers program.now config.now silent (Err f)) }
{
    check_variables(alloc, program)?;
    let values = constant_values(alloc, program, config)?;
    let names = program_names(alloc, program, config, &values)?;
    let used = uses(alloc, program, config, &names)?;
    check_names(alloc, program, config, &names, &used)?;
    check_values(alloc, program, config)?;
    let named = tabled(alloc, program, config, &values, &names, &used)?;
    Ok(named)
}
