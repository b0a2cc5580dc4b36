//! The table of a program's definitions.

ghost use Rattle.std.specs.Prelude.{◌≡◌, ◌<◌, ℕ, List, IfOk, OnOk, None, Some, length, map};
ghost use Rattle.std.specs.List.{slice_index_or, slice_get};
ghost use Rattle.values_core.specs.Data.{Val};
ghost use Rattle.names_terms.specs.declared.operator.Own.TheVariants.{Apart};
ghost use Rattle.names_term_parts.specs.Slots.{UsesSmaller};
ghost use Rattle.names_scopes.specs.Standing.{AreIn};
ghost use Rattle.names_meanings.specs.Complaints.{complaint, with_names};
ghost use Rattle.names_meanings.specs.Means.{no_body};
ghost use Rattle.names_meanings.specs.Outcomes.{takes_of};
ghost use Rattle.names_program.specs.InUnits.{definitions_in};
ghost use Rattle.names_program.specs.Names.{AreNames, by_index, numbers_of};
ghost use Rattle.names_tables.specs.Filling.{Filled, IsAdded, IsBegun, IsPlaced, IsPut, IsSettled, IsSettledAt, IsSettledIf};
ghost use Rattle.names_tables.specs.NameFaults.{HasFineNames};
ghost use Rattle.names_tables.specs.Tables.{IsTable, StaysTable, unit_operator};
ghost use Rattle.names_tables.specs.UnitComplaints.{AreRecursive, AreUses};
ghost use Rattle.base_use_order.specs.Uses.{table_of};
ghost use Rattle.base_use_order.specs.Apart.{IsOrderApart};

use crate::empty::no_body;
use crate::own::own_of;
use crate::recursion::{is_marked, recursive};
use crate::term::term_of;
use base_core::NoMemory;
use base_use_order::order_apart;
use names_program::{add_numbered, definitions, names_by_definition, numbered_names};
use names_scopes::ProgramNames;
use names_terms::{Operator, Operators, Own, Term};
use reading_trees::{Config, Definition, Program};
use std::alloc::Global;

/// The definitions of a program by their numbers, with those of LETs; the numbers, by the indices of the definitions in the text; and the names of
/// the program, which tell its definitions by these numbers.
#[derive(Drop)]
pub struct Table {
    pub operators: Operators,
    pub numbers: Vec<Option<usize>>,
    pub names: ProgramNames,
}

/// As many definitions that have no number.
fn unnumbered(alloc: Global, count: usize) -> Result<Vec<Option<usize>>, NoMemory>
    ensures count { IfOk result (λ v. length v.items ≡ count) }
    ensures none { IfOk result (λ v. (i : ℕ) → numbers_of v.items i ≡ None) }
{
    let mut numbers = Vec::new(alloc);
    for made in 0..count {
        numbers.push(None)?;
    }
    Ok(numbers)
}

/// A table without definitions.
fn begun(alloc: Global, names: &ProgramNames, count: usize) -> Result<Table, NoMemory>
    ensures { IfOk result (IsBegun names.now count) }
{
    let numbers = unnumbered(alloc, count)?;
    let names = numbered_names(alloc, names, &numbers)?;
    Ok(Table {
        operators: Operators::new(alloc),
        numbers,
        names,
    })
}

/// A definition of a unit as one of the table.
fn unit_operator(definition: &Definition, own: Own, body: Term) -> Result<Operator, NoMemory>
    ensures { IfOk result (λ o. o ≡ unit_operator definition.now own body) }
{
    let name = definition.name.copy()?;
    Ok(Operator {
        name,
        outer: 0,
        params: definition.params.len(),
        level: body.level,
        own,
        body,
    })
}

/// Puts the definition of that index behind all others, and gives it its number.
fn put(
    table: &mut Table,
    by_definition: &[ProgramNames],
    index: usize,
    definition: &Definition,
    own: Own,
    body: Term,
) -> Result<(), NoMemory>
    requires known { AreIn (length table.old.operators) table.old.names }
    requires within { index < length table.old.numbers.items }
    ensures { OnOk result (IsPut by_definition.now index definition.now own body table.old table.new) }
{
    let number = table.operators.len();
    let operator = unit_operator(definition, own, body)?;
    table.operators.push(operator)?;
    add_numbered(&mut table.names, by_definition, index, number)?;
    table.numbers[index] = Some(number);
    Ok(())
}

/// Adds the definition of that index, which does not use itself, and uses only what stands in the table.
fn add(
    alloc: Global,
    table: &mut Table,
    by_definition: &[ProgramNames],
    index: usize,
    definition: &Definition,
) -> Result<(), NoMemory>
    requires known { AreIn (length table.old.operators) table.old.names }
    requires ordered { UsesSmaller table.old.operators }
    requires within { index < length table.old.numbers.items }
    requires fine { complaint (with_names (takes_of table.old.operators table.old.names) definition.now.params) definition.now.body ≡ None }
    ensures { OnOk result (IsAdded by_definition.now index definition.now table.old table.new) }
{
    let body = term_of(
        alloc,
        &table.names,
        &definition.params,
        &mut table.operators,
        &definition.body,
    )?;
    put(table, by_definition, index, definition, Own::Apart, body)?;
    Ok(())
}

/// Keeps a place for the definition of that index, which uses itself.
fn reserve(
    alloc: Global,
    table: &mut Table,
    by_definition: &[ProgramNames],
    index: usize,
    definition: &Definition,
    own: Own,
) -> Result<(), NoMemory>
    requires known { AreIn (length table.old.operators) table.old.names }
    requires within { index < length table.old.numbers.items }
    ensures { OnOk result (IsPut by_definition.now index definition.now own no_body table.old table.new) }
{
    let body = no_body(alloc)?;
    put(table, by_definition, index, definition, own, body)
}

/// Adds the definition of that index, or keeps a place for it, by how it uses itself.
fn place(
    alloc: Global,
    table: &mut Table,
    by_definition: &[ProgramNames],
    index: usize,
    definition: &Definition,
    own: Own,
) -> Result<(), NoMemory>
    requires known { AreIn (length table.old.operators) table.old.names }
    requires ordered { UsesSmaller table.old.operators }
    requires within { index < length table.old.numbers.items }
    requires fine { own ≡ Apart → complaint (with_names (takes_of table.old.operators table.old.names) definition.now.params) definition.now.body ≡ None }
    ensures { OnOk result (IsPlaced by_definition.now own index definition.now table.old table.new) }
{
    match own {
        Own::Apart => add(alloc, table, by_definition, index, definition),
        Own::Itself => reserve(alloc, table, by_definition, index, definition, Own::Itself),
        Own::Function => reserve(
            alloc,
            table,
            by_definition,
            index,
            definition,
            Own::Function,
        ),
    }
}

/// Gives the definition of that number its body.
fn settle_at(
    alloc: Global,
    table: &mut Table,
    number: usize,
    definition: &Definition,
) -> Result<(), NoMemory>
    requires known { AreIn (length table.old.operators) table.old.names }
    requires ordered { UsesSmaller table.old.operators }
    requires within { number < length table.old.operators }
    requires fine { complaint (with_names (takes_of table.old.operators table.old.names) definition.now.params) definition.now.body ≡ None }
    ensures { OnOk result (IsSettledAt number definition.now table.old table.new) }
{
    let body = term_of(
        alloc,
        &table.names,
        &definition.params,
        &mut table.operators,
        &definition.body,
    )?;
    table.operators.set_body(number, body);
    Ok(())
}

/// The number of the definition of that index.
fn number_at(numbers: &[Option<usize>], index: usize) -> Option<usize>
    ensures { result ≡ numbers_of numbers.now index }
{
    match numbers.get(index) {
        Some(number) => *number,
        None => None,
    }
}

/// Gives the definition of that index its body.
fn settle(
    alloc: Global,
    table: &mut Table,
    index: usize,
    definition: &Definition,
) -> Result<(), NoMemory>
    requires known { AreIn (length table.old.operators) table.old.names }
    requires ordered { UsesSmaller table.old.operators }
    requires numbered { (k : ℕ) × (numbers_of table.old.numbers.items index ≡ Some k) × (k < length table.old.operators) }
    requires fine { complaint (with_names (takes_of table.old.operators table.old.names) definition.now.params) definition.now.body ≡ None }
    ensures { OnOk result (IsSettled index definition.now table.old table.new) }
{
    match number_at(&table.numbers, index) {
        Some(number) => {
            settle_at(alloc, table, number, definition)?;
            Ok(())
        }
        None => unreachable!(),
    }
}

/// The same where it uses itself; else it has its body.
fn settle_if(
    alloc: Global,
    table: &mut Table,
    itself: bool,
    index: usize,
    definition: &Definition,
) -> Result<(), NoMemory>
    requires known { AreIn (length table.old.operators) table.old.names }
    requires ordered { UsesSmaller table.old.operators }
    requires numbered { (k : ℕ) × (numbers_of table.old.numbers.items index ≡ Some k) × (k < length table.old.operators) }
    requires fine { complaint (with_names (takes_of table.old.operators table.old.names) definition.now.params) definition.now.body ≡ None }
    ensures { OnOk result (IsSettledIf itself index definition.now table.old table.new) }
{
    if itself {
        return settle(alloc, table, index, definition);
    }
    Ok(())
}

/// The table with a place for each definition, in an order of uses: one that does not use itself has its body.
fn placed(
    alloc: Global,
    program: &Program,
    config: &Config,
    names: &ProgramNames,
    uses: &[Vec<usize>],
    marks: &[bool],
    order: &[usize],
) -> Result<Table, NoMemory>
    requires fine { HasFineNames program.now config.now }
    requires are { (values : List Val) × AreNames program.now config.now values by_index names.now }
    requires known { AreIn (length (definitions_in program.now.units)) names.now }
    requires used { AreUses program.now config.now (table_of uses.now) }
    requires recursive { AreRecursive (table_of uses.now) marks.now }
    requires ordered { IsOrderApart marks.now (table_of uses.now) order.now }
    ensures { IfOk result (Filled program.now config.now names.now marks.now order.now (length order.now) 0) }
{
    let definitions = definitions(alloc, &program.units)?;
    let by_definition = names_by_definition(alloc, names, definitions.len())?;
    let mut table = begun(alloc, names, definitions.len())?;
    for next in order {
        let definition = definitions[*next];
        let itself = is_marked(marks, *next);
        let own = own_of(names, itself, *next, definition);
        place(alloc, &mut table, &by_definition, *next, definition, own)?;
    }
    Ok(table)
}

/// The table in which the definitions that use themselves have got their bodies too.
fn filled(
    alloc: Global,
    program: &Program,
    config: &Config,
    names: &ProgramNames,
    uses: &[Vec<usize>],
    marks: &[bool],
    order: &[usize],
) -> Result<Table, NoMemory>
    requires fine { HasFineNames program.now config.now }
    requires are { (values : List Val) × AreNames program.now config.now values by_index names.now }
    requires known { AreIn (length (definitions_in program.now.units)) names.now }
    requires used { AreUses program.now config.now (table_of uses.now) }
    requires recursive { AreRecursive (table_of uses.now) marks.now }
    requires ordered { IsOrderApart marks.now (table_of uses.now) order.now }
    ensures { IfOk result (Filled program.now config.now names.now marks.now order.now (length order.now) (length (definitions_in program.now.units))) }
{
    let definitions = definitions(alloc, &program.units)?;
    let mut table = placed(alloc, program, config, names, uses, marks, order)?;
    for index in 0..definitions.len() {
        let definition = definitions[index];
        let itself = is_marked(marks, index);
        settle_if(alloc, &mut table, itself, index, definition)?;
    }
    Ok(table)
}

/// The definitions of a program of whose names none is wrong, each resolved among those that it uses. The names tell definitions by their indices, and
/// `uses` gives those that each definition uses.
pub fn program_table(
    alloc: Global,
    program: &Program,
    config: &Config,
    names: &ProgramNames,
    uses: &[Vec<usize>],
) -> Result<Table, NoMemory>
    requires fine { HasFineNames program.now config.now }
    requires are { (values : List Val) × AreNames program.now config.now values by_index names.now }
    requires known { AreIn (length (definitions_in program.now.units)) names.now }
    requires used { AreUses program.now config.now (table_of uses.now) }
    ensures tabled { IfOk result (λ t. (values : List Val) → AreNames program.now config.now values by_index names.now → IsTable program.now config.now values (numbers_of t.numbers.items) t.operators) }
    ensures lasting { IfOk result (λ t. (values : List Val) → AreNames program.now config.now values by_index names.now → StaysTable program.now config.now values (numbers_of t.numbers.items) t.operators) }
    ensures are { IfOk result (λ t. (values : List Val) → AreNames program.now config.now values by_index names.now → AreNames program.now config.now values (numbers_of t.numbers.items) t.names) }
    ensures known { IfOk result (λ t. AreIn (length t.operators) t.names) }
{
    let marks = recursive(alloc, uses)?;
    let order = order_apart(alloc, uses, &marks)?;
    filled(alloc, program, config, names, uses, &marks, &order)
}
