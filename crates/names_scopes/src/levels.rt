//! The level of a meaning, from those of its parts.

ghost use Rattle.std.specs.Prelude.{◌≡◌, slice_get};
ghost use Rattle.names_terms.specs.Terms.{Operands as OperandTerms, Steps as StepTerms, level_of};
ghost use Rattle.names_terms.specs.TermViews.{node_view, step_view, operands_from, steps_from};
ghost use Rattle.names_terms.specs.Levels.{joined, of_terms, of_operands, of_step, of_steps, of_path, of_bounds, of_fields, of_changes, of_arms, of_operator, of_prefix, of_infix, level_for};

use names_terms::{
    Arms, Bounds, Changes, Fields, Level, Operand, Operands, Operators, Step, StepAt, Steps, Term,
    TermNode, Terms,
};
use reading_trees::{InfixOperator, PrefixOperator};

/// The greater of two levels.
fn joined(a: Level, b: Level) -> Level
    ensures { result ≡ joined a b }
{
    match a {
        Level::Constant => b,
        Level::State => match b {
            Level::Constant => Level::State,
            _ => b,
        },
        Level::Action => match b {
            Level::Temporal => Level::Temporal,
            _ => Level::Action,
        },
        Level::Temporal => Level::Temporal,
    }
}

fn of_terms(terms: &Terms) -> Level
    ensures { result ≡ of_terms terms.now }
{
    let items = terms.items();
    let mut level = Level::Constant;
    for term in items {
        level = joined(level, term.level);
    }
    level
}

/// The level of operands: that of those before, and those of the others.
fn of_others(before: Level, others: &[Operand]) -> Level
    ensures { (so_far : OperandTerms) → before ≡ of_operands so_far → result ≡ of_operands (operands_from so_far others.now) }
{
    let mut level = before;
    for operand in others {
        level = joined(level, operand.value.level);
    }
    level
}

fn level_here(term: &Term) -> Level
    ensures { result ≡ level_of term.now }
{
    term.level
}

fn of_operands(operands: &Operands) -> Level
    ensures { result ≡ of_operands operands.now }
{
    let (first, others) = operands.parts();
    of_others(level_here(first), others)
}

fn of_step(before: Level, step: &Step) -> Level
    ensures { result ≡ of_step before (step_view step.now) }
{
    match step {
        Step::Prime => Level::Action,
        Step::Index(terms) => joined(before, of_terms(terms)),
        Step::Field(_) => before,
    }
}

/// The level behind steps, and behind those before them.
fn of_steps(before: Level, steps: &[StepAt]) -> Level
    ensures { (base : Level) → (so_far : StepTerms) → before ≡ of_steps base so_far → result ≡ of_steps base (steps_from so_far steps.now) }
{
    let mut level = before;
    for step in steps {
        level = of_step(level, &step.step);
    }
    level
}

fn of_path(path: &Steps) -> Level
    ensures { result ≡ of_path path.now }
{
    of_steps(Level::Constant, path.items())
}

fn of_bounds(bounds: &Bounds) -> Level
    ensures { result ≡ of_bounds bounds.now }
{
    let items = bounds.items();
    let mut level = Level::Constant;
    for bound in items {
        level = joined(level, bound.set.level);
    }
    level
}

fn of_fields(fields: &Fields) -> Level
    ensures { result ≡ of_fields fields.now }
{
    let items = fields.items();
    let mut level = Level::Constant;
    for field in items {
        level = joined(level, field.value.level);
    }
    level
}

fn of_changes(changes: &Changes) -> Level
    ensures { result ≡ of_changes changes.now }
{
    let items = changes.items();
    let mut level = Level::Constant;
    for change in items {
        level = joined(level, joined(of_path(&change.path), change.value.level));
    }
    level
}

fn of_arms(arms: &Arms) -> Level
    ensures { result ≡ of_arms arms.now }
{
    let items = arms.items();
    let mut level = Level::Constant;
    for arm in items {
        level = joined(level, joined(arm.test.level, arm.value.level));
    }
    level
}

fn of_prefix(operator: PrefixOperator, level: Level) -> Level
    ensures { result ≡ of_prefix operator level }
{
    match operator {
        PrefixOperator::Unchanged => Level::Action,
        PrefixOperator::Enabled => Level::Temporal,
        PrefixOperator::Always => Level::Temporal,
        PrefixOperator::Eventually => Level::Temporal,
        PrefixOperator::Not => level,
        PrefixOperator::Powerset => level,
        PrefixOperator::BigUnion => level,
        PrefixOperator::Domain => level,
        PrefixOperator::Negate => level,
    }
}

fn of_infix(operator: InfixOperator, level: Level) -> Level
    ensures { result ≡ of_infix operator level }
{
    match operator {
        InfixOperator::LeadsTo => Level::Temporal,
        _ => level,
    }
}

/// The level of the definition of that number.
fn of_operator(table: &Operators, number: usize) -> Level
    ensures { result ≡ of_operator (slice_get table.now number) }
{
    match table.get(number) {
        Some(operator) => operator.level,
        None => Level::Constant,
    }
}

/// The level of a term with this meaning, whose parts have their levels.
pub fn level_for(table: &Operators, node: &TermNode) -> Level
    ensures { result ≡ level_for table.now (node_view node.now) }
{
    match node {
        TermNode::Known(_) => Level::Constant,
        TermNode::Named(_) => Level::Constant,
        TermNode::Variable(_) => Level::State,
        TermNode::Slot(_) => Level::Constant,
        TermNode::Use(number, arguments) => joined(
            of_operator(table, number.0),
            of_terms(arguments),
        ),
        TermNode::Standard(_, arguments) => of_terms(arguments),
        TermNode::Parenthesized(inner) => inner.level,
        TermNode::Scoped(_, inner) => inner.level,
        TermNode::All(terms) => of_terms(terms),
        TermNode::Any(terms) => of_terms(terms),
        TermNode::Prefix(operator, operand) => of_prefix(*operator, operand.level),
        TermNode::Infix(operator, operands, last) => of_infix(
            *operator,
            joined(of_operands(operands), last.level),
        ),
        TermNode::Postfix(base, steps, step) => of_postfix(base, steps, step),
        TermNode::SetOf(terms) => of_terms(terms),
        TermNode::Filter(set, test) => joined(set.level, test.level),
        TermNode::Map(value, bounds) => joined(value.level, of_bounds(bounds)),
        TermNode::Tuple(terms) => of_terms(terms),
        TermNode::Function(bounds, value) => joined(of_bounds(bounds), value.level),
        TermNode::FunctionSet(domain, range) => joined(domain.level, range.level),
        TermNode::Record(fields) => of_fields(fields),
        TermNode::RecordSet(fields) => of_fields(fields),
        TermNode::Except(function, changes) => joined(function.level, of_changes(changes)),
        TermNode::Quantified(_, bounds, body) => joined(of_bounds(bounds), body.level),
        TermNode::Choose(set, test) => joined(set.level, test.level),
        TermNode::If(test, then, last) => joined(test.level, joined(then.level, last.level)),
        TermNode::Case(arms, None) => of_arms(arms),
        TermNode::Case(arms, Some(other)) => joined(of_arms(arms), other.level),
        TermNode::BoxAction(_, _) => Level::Action,
        TermNode::AngleAction(_, _) => Level::Action,
        TermNode::Fairness(_, _) => Level::Temporal,
    }
}

fn of_postfix(base: &Term, steps: &Steps, last: &Step) -> Level
    ensures { result ≡ of_step (of_steps (level_of base.now) steps.now) (step_view last.now) }
{
    of_step(of_steps(level_here(base), steps.items()), last)
}
