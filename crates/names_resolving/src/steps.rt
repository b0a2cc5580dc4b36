//! Init and Next.

ghost use Rattle.std.specs.Prelude.{◌≡◌, ◌≢◌, ◌≤◌, [], ◌∷◌, ◌++◌, IfOk, IfErr, OnOk, MatchOption, None, Some, length, map, option_map};
ghost use Rattle.names_terms.specs.Terms.{Term as Seen, place_of};
ghost use Rattle.names_terms.specs.TermViews.{terms_of};
ghost use Rattle.names_term_levels.specs.Notes.{AreNotes};
ghost use Rattle.names_term_levels.specs.Shape.{HasShape, init_of, rows};
ghost use Rattle.names_term_parts.specs.Slots.{MentionsBelow, UsesSmaller};
ghost use Rattle.names_program.specs.Names.{numbers_of};
ghost use Rattle.names_resolving.specs.Configured.{AreSteps, HasBody, HasNoShape, missing};
ghost use Rattle.base_core.specs.declared.place.Place.{Place as At};
ghost use Rattle.names_resolving.specs.Resolved.{IsOneForm};
ghost use Rattle.names_resolving.specs.Standing.{AreDeclarations, GivesShape, IsComplete, RefusesBody, RefusesShape};

use crate::configured::{operator_for, operator_named};
use crate::fault::ResolveFault;
use crate::finding::Declarations;
use base_core::{NoMemory, Place, Text};
use names_scopes::level_for;
use names_tables::Table;
use names_term_copies::copy_term;
use names_term_levels::{Note, specification};
use names_terms::{Operator, Operators, Term, TermNode, Terms};
use reading_trees::{Config, Program};
use std::alloc::Global;

/// Init and Next of a specification.
#[derive(Drop)]
pub(crate) struct Steps {
    pub init: Term,
    pub next: Term,
}

/// Copies of terms.
fn copies(alloc: Global, terms: &[&Term]) -> Result<Terms, NoMemory>
    ensures { IfOk result (λ ts. ts ≡ terms_of (rows terms.now)) }
{
    let mut copies = Terms::new(alloc);
    for term in terms {
        copies.push(copy_term(alloc, term)?)?;
    }
    Ok(copies)
}

/// One conjunct as it is, or several as their conjunction at a place.
fn conjunction(
    alloc: Global,
    table: &Operators,
    at: Place,
    terms: &[&Term],
) -> Result<Term, NoMemory>
    ensures { IfOk result (λ e. e ≡ init_of at (rows terms.now)) }
{
    if terms.len() == 1 {
        return copy_term(alloc, terms[0]);
    }
    let node = TermNode::All(copies(alloc, terms)?);
    let level = level_for(table, &node);
    Term::new(alloc, at, level, node)
}

/// Init and Next by the shape of a body, if it has one.
fn shaped(
    alloc: Global,
    table: &Operators,
    notes: &[Note],
    body: &Term,
) -> Result<Option<Steps>, NoMemory>
    requires noted { AreNotes table.now notes.now }
    requires all { length notes.now ≡ length table.now }
    requires below { MentionsBelow (length table.now) body.now }
    ensures { IfOk result (λ o. MatchOption o ((init next : Seen) → ¬ HasShape table.now body.now init next) (λ s. HasShape table.now body.now s.init s.next)) }
{
    match specification(alloc, table.items(), notes, body)? {
        Some(shape) => Ok(Some(Steps {
            init: conjunction(alloc, table, body.at, &shape.inits)?,
            next: copy_term(alloc, shape.next)?,
        })),
        None => Ok(None),
    }
}

/// The body of the operator of that name, which is there.
fn body_of<'a>(
    program: &Program,
    declarations: &Declarations<'_>,
    table: &'a Table,
    name: &Text,
) -> &'a Operator
    requires declared { AreDeclarations program.now declarations.now }
    requires complete { IsComplete program.now table.now }
    requires there { missing program.now (Some name.now) ≡ None }
    ensures { HasBody program.now (numbers_of table.now.numbers.items) table.now.operators name.now result.now.body }
{
    match operator_for(program, declarations, table, name) {
        Some(operator) => operator,
        None => unreachable!(),
    }
}

/// Init and Next by the names behind INIT and NEXT.
fn by_names(
    alloc: Global,
    program: &Program,
    declarations: &Declarations<'_>,
    table: &Table,
    init: &Text,
    next: &Text,
) -> Result<Steps, NoMemory>
    requires declared { AreDeclarations program.now declarations.now }
    requires complete { IsComplete program.now table.now }
    requires init { missing program.now (Some init.now) ≡ None }
    requires next { missing program.now (Some next.now) ≡ None }
    ensures init { IfOk result (λ s. HasBody program.now (numbers_of table.now.numbers.items) table.now.operators init.now s.init) }
    ensures next { IfOk result (λ s. HasBody program.now (numbers_of table.now.numbers.items) table.now.operators next.now s.next) }
{
    let init = body_of(program, declarations, table, init);
    let next = body_of(program, declarations, table, next);
    Ok(Steps {
        init: copy_term(alloc, &init.body)?,
        next: copy_term(alloc, &next.body)?,
    })
}

/// Init and Next by the shape of the operator of that name, which is there.
fn by_specification(
    alloc: Global,
    program: &Program,
    declarations: &Declarations<'_>,
    table: &Table,
    notes: &[Note],
    name: &Text,
) -> Result<Steps, ResolveFault>
    requires declared { AreDeclarations program.now declarations.now }
    requires complete { IsComplete program.now table.now }
    requires there { missing program.now (Some name.now) ≡ None }
    requires noted { AreNotes table.now.operators notes.now }
    requires all { length notes.now ≡ length table.now.operators }
    requires ordered { UsesSmaller table.now.operators }
    ensures steps { IfOk result (λ s. GivesShape program.now (numbers_of table.now.numbers.items) table.now.operators name.now s.init s.next) }
    ensures refused { IfErr result (RefusesBody program.now (numbers_of table.now.numbers.items) table.now.operators name.now) }
{
    let operator = body_of(program, declarations, table, name);
    match shaped(alloc, &table.operators, notes, &operator.body)? {
        Some(steps) => Ok(steps),
        None => match operator_named(program, declarations, name) {
            Some(definition) => Err(ResolveFault::NotTheShape(definition.at)),
            None => unreachable!(),
        },
    }
}

/// Init and Next of a configuration whose names have operators.
pub(crate) fn steps_of(
    alloc: Global,
    program: &Program,
    declarations: &Declarations<'_>,
    config: &Config,
    table: &Table,
    notes: &[Note],
) -> Result<Steps, ResolveFault>
    requires declared { AreDeclarations program.now declarations.now }
    requires complete { IsComplete program.now table.now }
    requires form { IsOneForm config.now }
    requires init { missing program.now config.now.init ≡ None }
    requires next { missing program.now config.now.next ≡ None }
    requires specification { missing program.now config.now.specification ≡ None }
    requires noted { AreNotes table.now.operators notes.now }
    requires all { length notes.now ≡ length table.now.operators }
    requires ordered { UsesSmaller table.now.operators }
    ensures steps { IfOk result (λ s. AreSteps program.now config.now (numbers_of table.now.numbers.items) table.now.operators s.init s.next) }
    ensures shape { OnOk result ((at : At) → ¬ HasNoShape program.now config.now (numbers_of table.now.numbers.items) table.now.operators at) }
    ensures refused { IfErr result (RefusesShape program.now config.now (numbers_of table.now.numbers.items) table.now.operators) }
{
    match &config.specification {
        Some(name) => by_specification(alloc, program, declarations, table, notes, name),
        None => match &config.init {
            Some(init) => match &config.next {
                Some(next) => Ok(by_names(alloc, program, declarations, table, init, next)?),
                None => unreachable!(),
            },
            None => unreachable!(),
        },
    }
}
