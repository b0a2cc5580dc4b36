//! Parts of a term that are too high for it.

ghost use Rattle.std.specs.Prelude.{◌≡◌, [], ◌∷◌, ◌++◌};
ghost use Rattle.names_terms.specs.Terms.{level_of};
ghost use Rattle.names_terms.specs.TermViews.{node_view, step_view};
ghost use Rattle.names_terms.specs.Levels.{of_steps};
ghost use Rattle.names_term_parts.specs.Limits.{change_limits, index_limits, infix_allows, limit, limits, no_temporal, operand_limits, path_limits, prefix_allows, set_limits, step_limits, steps_limits, term_limits, value_limits};
ghost use Rattle.names_term_parts.specs.Chains.{first_place, other_limits};
ghost use Rattle.names_term_parts.specs.FaultOrder.{held_all};

use crate::fault::{LevelFault, held};
use crate::levels::of_step;
use base_core::Place;
use names_terms::{
    Bounds, Changes, Fields, Level, Operand, Operands, Step, Steps, Term, TermNode, Terms,
};
use reading_trees::{InfixOperator, PrefixOperator};

fn level_here(term: &Term) -> Level
    ensures { result ≡ level_of term.now }
{
    term.level
}

fn in_terms(found: Option<LevelFault>, at: Place, terms: &Terms) -> Option<LevelFault>
    ensures { result ≡ held_all found (term_limits at terms.now) }
{
    let items = terms.items();
    let mut found = found;
    for term in items {
        found = held(found, at, Level::Action, term.level);
    }
    found
}

fn in_sets(found: Option<LevelFault>, at: Place, bounds: &Bounds) -> Option<LevelFault>
    ensures { result ≡ held_all found (set_limits at bounds.now) }
{
    let items = bounds.items();
    let mut found = found;
    for bound in items {
        found = held(found, at, Level::Action, bound.set.level);
    }
    found
}

fn in_values(found: Option<LevelFault>, at: Place, fields: &Fields) -> Option<LevelFault>
    ensures { result ≡ held_all found (value_limits at fields.now) }
{
    let items = fields.items();
    let mut found = found;
    for field in items {
        found = held(found, at, Level::Action, field.value.level);
    }
    found
}

fn prefix_allows(operator: PrefixOperator) -> Level
    ensures { result ≡ prefix_allows operator }
{
    match operator {
        PrefixOperator::Not | PrefixOperator::Always | PrefixOperator::Eventually => {
            Level::Temporal
        }
        PrefixOperator::Unchanged => Level::State,
        PrefixOperator::Enabled
        | PrefixOperator::Powerset
        | PrefixOperator::BigUnion
        | PrefixOperator::Domain
        | PrefixOperator::Negate => Level::Action,
    }
}

fn infix_allows(operator: InfixOperator) -> Level
    ensures { result ≡ infix_allows operator }
{
    match operator {
        InfixOperator::Implies
        | InfixOperator::Equivalent
        | InfixOperator::LeadsTo
        | InfixOperator::And
        | InfixOperator::Or => Level::Temporal,
        _ => Level::Action,
    }
}

/// The first operator of a chain whose last operator has that place.
fn first_place(at: Place, others: &[Operand]) -> Place
    ensures { result ≡ first_place at others.now }
{
    match others.first() {
        Some(operand) => operand.at,
        None => at,
    }
}

fn in_others(found: Option<LevelFault>, allowed: Level, others: &[Operand]) -> Option<LevelFault>
    ensures { result ≡ held_all found (other_limits allowed others.now) }
{
    let mut found = found;
    for operand in others {
        found = held(found, operand.at, allowed, operand.value.level);
    }
    found
}

fn in_operands(
    found: Option<LevelFault>,
    at: Place,
    operator: InfixOperator,
    operands: &Operands,
) -> Option<LevelFault>
    ensures { result ≡ held_all found (operand_limits at operator operands.now) }
{
    let allowed = infix_allows(operator);
    let (first, others) = operands.parts();
    let found = held(found, first_place(at, others), allowed, level_here(first));
    in_others(found, allowed, others)
}

fn in_step(found: Option<LevelFault>, at: Place, level: Level, step: &Step) -> Option<LevelFault>
    ensures { result ≡ held_all found (step_limits at level (step_view step.now)) }
{
    match step {
        Step::Prime => held(found, at, Level::State, level),
        Step::Index(terms) => in_terms(held(found, at, Level::Action, level), at, terms),
        Step::Field(_) => held(found, at, Level::Action, level),
    }
}

/// What is too high in steps and the last one, behind what has that level.
fn in_steps(
    found: Option<LevelFault>,
    at: Place,
    level: Level,
    steps: &Steps,
    last: &Step,
) -> Option<LevelFault>
    ensures { result ≡ held_all found (steps_limits level steps.now ++ step_limits at (of_steps level steps.now) (step_view last.now)) }
{
    let items = steps.items();
    let mut found = found;
    let mut before = level;
    for step in items {
        found = in_step(found, step.at, before, &step.step);
        before = of_step(before, &step.step);
    }
    in_step(found, at, before, last)
}

fn in_path(found: Option<LevelFault>, at: Place, path: &Steps) -> Option<LevelFault>
    ensures { result ≡ held_all found (path_limits at path.now) }
{
    let items = path.items();
    let mut found = found;
    for step in items {
        found = in_index(found, at, &step.step);
    }
    found
}

fn in_index(found: Option<LevelFault>, at: Place, step: &Step) -> Option<LevelFault>
    ensures { result ≡ held_all found (index_limits at (step_view step.now)) }
{
    match step {
        Step::Index(terms) => in_terms(found, at, terms),
        Step::Prime => found,
        Step::Field(_) => found,
    }
}

fn in_changes(found: Option<LevelFault>, at: Place, changes: &Changes) -> Option<LevelFault>
    ensures { result ≡ held_all found (change_limits at changes.now) }
{
    let items = changes.items();
    let mut found = found;
    for change in items {
        found = held(
            in_path(found, at, &change.path),
            at,
            Level::Action,
            change.value.level,
        );
    }
    found
}

/// The earlier of what was found and what is too high among the parts of a term at a place.
pub fn check_limits(found: Option<LevelFault>, at: Place, node: &TermNode) -> Option<LevelFault>
    ensures { result ≡ held_all found (limits at (node_view node.now)) }
{
    match node {
        TermNode::Known(_)
        | TermNode::Named(_)
        | TermNode::Variable(_)
        | TermNode::Slot(_)
        | TermNode::Parenthesized(_)
        | TermNode::Scoped(_, _)
        | TermNode::All(_)
        | TermNode::Any(_)
        | TermNode::If(_, _, _)
        | TermNode::Case(_, _)
        | TermNode::Fairness(_, _) => found,
        TermNode::Use(_, terms) => in_terms(found, at, terms),
        TermNode::Standard(_, terms) => in_terms(found, at, terms),
        TermNode::SetOf(terms) => in_terms(found, at, terms),
        TermNode::Tuple(terms) => in_terms(found, at, terms),
        TermNode::Prefix(operator, term) => held(found, at, prefix_allows(*operator), term.level),
        TermNode::Infix(operator, operands, last) => held(
            in_operands(found, at, *operator, operands),
            at,
            infix_allows(*operator),
            last.level,
        ),
        TermNode::Postfix(base, steps, last) => in_steps(found, at, base.level, steps, last),
        TermNode::Filter(set, test) => in_two(found, at, set, test),
        TermNode::FunctionSet(set, value) => in_two(found, at, set, value),
        TermNode::Choose(set, test) => in_two(found, at, set, test),
        TermNode::Map(value, bounds) => {
            in_sets(held(found, at, Level::Action, value.level), at, bounds)
        }
        TermNode::Function(bounds, value) => {
            held(in_sets(found, at, bounds), at, Level::Action, value.level)
        }
        TermNode::Record(fields) => in_values(found, at, fields),
        TermNode::RecordSet(fields) => in_values(found, at, fields),
        TermNode::Except(base, changes) => {
            in_changes(held(found, at, Level::Action, base.level), at, changes)
        }
        TermNode::Quantified(_, bounds, _) => in_sets(found, at, bounds),
        TermNode::BoxAction(action, subscript) => in_action(found, at, action, subscript),
        TermNode::AngleAction(action, subscript) => in_action(found, at, action, subscript),
    }
}

/// Two parts that are at most actions.
fn in_two(found: Option<LevelFault>, at: Place, first: &Term, second: &Term) -> Option<LevelFault>
    ensures { result ≡ held_all found (no_temporal at first.now ∷ no_temporal at second.now ∷ []) }
{
    held(
        held(found, at, Level::Action, first.level),
        at,
        Level::Action,
        second.level,
    )
}

/// An action and its subscript.
fn in_action(
    found: Option<LevelFault>,
    at: Place,
    action: &Term,
    subscript: &Term,
) -> Option<LevelFault>
    ensures { result ≡ held_all found (no_temporal at action.now ∷ limit at Level.State (level_of subscript.now) ∷ []) }
{
    held(
        held(found, at, Level::Action, action.level),
        at,
        Level::State,
        subscript.level,
    )
}
