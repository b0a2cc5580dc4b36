//! The first thing that is wrong with the names of a program.

ghost use Rattle.std.specs.Prelude.{◌≡◌, [], ◌∷◌, ℕ, List, IfOk, MatchOption, None, length, map};
ghost use Rattle.values_core.specs.Data.{Val};
ghost use Rattle.reading_trees.specs.declared.module.Unit.TheVariants.{Define};
ghost use Rattle.names_terms.specs.declared.operator.Own.TheVariants.{Apart};
ghost use Rattle.names_term_parts.specs.Slots.{MentionsBelow, UsesSmaller};
ghost use Rattle.names_scopes.specs.Standing.{AreIn};
ghost use Rattle.names_meanings.specs.Complaints.{complaint};
ghost use Rattle.names_meanings.specs.Outcomes.{Grows, above as above_level, takes_of};
ghost use Rattle.names_program.specs.InUnits.{definitions_in};
ghost use Rattle.names_program.specs.Names.{AreNames, by_index};
ghost use Rattle.names_program.specs.Recursion.{AreLevelsOf};
ghost use Rattle.names_tables.specs.NameFaults.{HasFineNames, IsFirstNameFault};
ghost use Rattle.names_tables.specs.UnitComplaints.{AreUses, AreWrong, unit_complaint};
ghost use Rattle.base_use_order.specs.Uses.{table_of};

use crate::declaring::declared_fault;
use crate::empty::no_body;
use crate::recursion::{is_marked, recursive, wrong_marks};
use crate::term::complaint_of;
use base_core::{Names, NoMemory, Text};
use base_use_order::order_apart;
use names_meanings::NameFault;
use names_program::definitions;
use names_scopes::ProgramNames;
use names_terms::{Level, Operator, Operators, Own};
use names_uses::{definition_levels, strict_uses};
use reading_trees::{Config, Definition, Expr, Program, Unit};
use std::alloc::Global;

/// Level 0 or above it.
fn level(above: bool) -> Level
    ensures { above_level result ≡ above }
{
    if above {
        return Level::State;
    }
    Level::Constant
}

/// A definition that stands for one whose body is not known yet, of which it is known whether it is above level 0.
fn placeholder(alloc: Global, above: bool) -> Result<Operator, NoMemory>
    ensures apart { IfOk result (λ o. o.own ≡ Apart) }
    ensures below { IfOk result (λ o. (k : ℕ) → MentionsBelow k o.body) }
    ensures level { IfOk result (λ o. above_level o.level ≡ above) }
{
    let name = Text::from_text(alloc, "")?;
    let body = no_body(alloc)?;
    Ok(Operator {
        name,
        outer: 0,
        params: 0,
        level: level(above),
        own: Own::Apart,
        body,
    })
}

/// A definition that stands for another, for each mark: whether it is above level 0.
fn placeholders(alloc: Global, levels: &[bool]) -> Result<Operators, NoMemory>
    ensures smaller { IfOk result UsesSmaller }
    ensures levels { IfOk result (λ ops. map (λ o. above_level o.level) ops ≡ levels.now) }
{
    let mut table = Operators::new(alloc);
    for above in levels {
        let item = placeholder(alloc, *above)?;
        table.push(item)?;
    }
    Ok(table)
}

/// What is wrong with a definition that uses itself wrongly or does not.
fn definition_fault(
    alloc: Global,
    names: &ProgramNames,
    table: &mut Operators,
    wrong: bool,
    definition: &Definition,
) -> Result<Option<NameFault>, NoMemory>
    requires known { AreIn (length table.old) names.now }
    requires ordered { UsesSmaller table.old }
    ensures exact { IfOk result (λ o. o ≡ unit_complaint [] (takes_of table.old names.now) wrong (Define definition.now)) }
    ensures grown { IfOk result (λ o. o ≡ None → Grows table.old table.new) }
    ensures smaller { IfOk result (λ o. o ≡ None → UsesSmaller table.new) }
{
    if wrong {
        let name = definition.name.copy()?;
        return Ok(Some(NameFault::Recursion(name, definition.at)));
    }
    complaint_of(alloc, names, &definition.params, table, &definition.body)
}

/// What is wrong with an assumption.
fn assumption_fault(
    alloc: Global,
    names: &ProgramNames,
    table: &mut Operators,
    tree: &Expr,
) -> Result<Option<NameFault>, NoMemory>
    requires known { AreIn (length table.old) names.now }
    requires ordered { UsesSmaller table.old }
    ensures exact { IfOk result (λ o. o ≡ complaint (takes_of table.old names.now) tree.now) }
    ensures grown { IfOk result (λ o. o ≡ None → Grows table.old table.new) }
    ensures smaller { IfOk result (λ o. o ≡ None → UsesSmaller table.new) }
{
    let params = Names::new(alloc);
    complaint_of(alloc, names, &params, table, tree)
}

/// What is wrong with a unit, of which it is known whether it uses itself wrongly.
fn unit_fault(
    alloc: Global,
    definitions: &[&Definition],
    names: &ProgramNames,
    table: &mut Operators,
    wrong: bool,
    unit: &Unit,
) -> Result<Option<NameFault>, NoMemory>
    requires known { AreIn (length table.old) names.now }
    requires ordered { UsesSmaller table.old }
    ensures exact { IfOk result (λ o. o ≡ unit_complaint (map (λ d. d.now) definitions.now) (takes_of table.old names.now) wrong unit.now) }
    ensures grown { IfOk result (λ o. o ≡ None → Grows table.old table.new) }
    ensures smaller { IfOk result (λ o. o ≡ None → UsesSmaller table.new) }
{
    match unit {
        Unit::Define(definition) => definition_fault(alloc, names, table, wrong, definition),
        Unit::Assume(tree) => assumption_fault(alloc, names, table, tree),
        Unit::Variables(_) => Ok(None),
        Unit::Constants(_) => Ok(None),
        Unit::Recursive(operators) => declared_fault(definitions, operators),
        Unit::Instance(_) => Ok(None),
        Unit::Passed => Ok(None),
    }
}

/// How many definitions a unit is.
fn definitions_of(unit: &Unit) -> usize
    ensures { result ≡ length (definitions_in (unit.now ∷ [])) }
{
    match unit {
        Unit::Define(_) => 1,
        Unit::Variables(_) => 0,
        Unit::Constants(_) => 0,
        Unit::Assume(_) => 0,
        Unit::Recursive(_) => 0,
        Unit::Instance(_) => 0,
        Unit::Passed => 0,
    }
}

/// Of each definition whether it uses itself wrongly.
fn wrong_of(
    alloc: Global,
    program: &Program,
    config: &Config,
    names: &ProgramNames,
    uses: &[Vec<usize>],
    levels: &[bool],
) -> Result<Vec<bool>, NoMemory>
    requires are { (values : List Val) × AreNames program.now config.now values by_index names.now }
    requires used { AreUses program.now config.now (table_of uses.now) }
    requires levels { AreLevelsOf program.now config.now levels.now }
    ensures { IfOk result (λ marks. AreWrong program.now config.now marks.items) }
{
    let strict = strict_uses(alloc, program, config, names)?;
    let strictly = recursive(alloc, &strict)?;
    let itself = recursive(alloc, uses)?;
    let marks = wrong_marks(alloc, &strictly, &itself, levels)?;
    Ok(marks)
}

/// The least levels of the definitions, which are raised in an order of their uses.
fn levels_in(
    alloc: Global,
    program: &Program,
    config: &Config,
    names: &ProgramNames,
    uses: &[Vec<usize>],
) -> Result<Vec<bool>, NoMemory>
    requires are { (values : List Val) × AreNames program.now config.now values by_index names.now }
    requires used { AreUses program.now config.now (table_of uses.now) }
    ensures { IfOk result (λ marks. AreLevelsOf program.now config.now marks.items) }
{
    let itself = recursive(alloc, uses)?;
    let order = order_apart(alloc, uses, &itself)?;
    let levels = definition_levels(alloc, program, config, names, &order)?;
    Ok(levels)
}

/// The first thing that is wrong with the names of a program, in the order of its units. The names tell definitions by their indices, and `uses` gives
/// those that each definition uses.
pub fn first_name_fault(
    alloc: Global,
    program: &Program,
    config: &Config,
    names: &ProgramNames,
    uses: &[Vec<usize>],
) -> Result<Option<NameFault>, NoMemory>
    requires are { (values : List Val) × AreNames program.now config.now values by_index names.now }
    requires known { AreIn (length (definitions_in program.now.units)) names.now }
    requires used { AreUses program.now config.now (table_of uses.now) }
    ensures { IfOk result (λ o. MatchOption o (HasFineNames program.now config.now) (IsFirstNameFault program.now config.now)) }
{
    let definitions = definitions(alloc, &program.units)?;
    let levels = levels_in(alloc, program, config, names, uses)?;
    let marks = wrong_of(alloc, program, config, names, uses, &levels)?;
    let mut table = placeholders(alloc, &levels)?;
    let mut index = 0;
    for unit in program.units.items() {
        let wrong = is_marked(&marks, index);
        let found = unit_fault(alloc, &definitions, names, &mut table, wrong, unit)?;
        match found {
            Some(fault) => return Ok(Some(fault)),
            None => index += definitions_of(unit),
        }
    }
    Ok(None)
}
