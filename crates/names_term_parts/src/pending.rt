//! The parts of a term, put on a stack.

ghost use Rattle.std.specs.Prelude.{◌≡◌, ◌||◌, [], ◌∷◌, ◌++◌, OnOk, map};
ghost use Rattle.names_terms.specs.TermViews.{node_view, step_view, steps_of};
ghost use Rattle.names_term_parts.specs.Parts.{arm_list, change_parts, has_prime, is_prime, listed, operand_list, part, parts, parts_of, primes, set_list, step_parts, steps_parts, value_list};
ghost use Rattle.names_term_parts.specs.Waiting.{waiting};

use base_core::NoMemory;
use names_terms::{
    Arms, Bounds, Changes, Fields, Operand, Operands, Step, StepAt, Steps, Term, TermNode, Terms,
};
use reading_trees::PrefixOperator;

/// A term that is still to be read, and whether it stands under a prime.
#[derive(Clone, Copy, Drop)]
pub struct Pending<'a> {
    pub term: &'a Term,
    pub primed: bool,
}

/// Puts a term on the stack.
pub fn push<'a>(stack: &mut Vec<Pending<'a>>, primed: bool, term: &'a Term) -> Result<(), NoMemory>
    ensures { OnOk result (waiting stack.new.items ≡ waiting stack.old.items ++ part primed term.now ∷ []) }
{
    stack.push(Pending { term, primed })?;
    Ok(())
}

fn push_two<'a>(
    stack: &mut Vec<Pending<'a>>,
    primed: bool,
    first: &'a Term,
    second: &'a Term,
    under: bool,
) -> Result<(), NoMemory>
    ensures { OnOk result (waiting stack.new.items ≡ waiting stack.old.items ++ part primed first.now ∷ part under second.now ∷ []) }
{
    push(stack, primed, first)?;
    push(stack, under, second)
}

fn push_three<'a>(
    stack: &mut Vec<Pending<'a>>,
    primed: bool,
    first: &'a Term,
    second: &'a Term,
    third: &'a Term,
) -> Result<(), NoMemory>
    ensures { OnOk result (waiting stack.new.items ≡ waiting stack.old.items ++ part primed first.now ∷ part primed second.now ∷ part primed third.now ∷ []) }
{
    push(stack, primed, first)?;
    push_two(stack, primed, second, third, primed)
}

/// Puts terms on the stack.
pub fn push_terms<'a>(
    stack: &mut Vec<Pending<'a>>,
    primed: bool,
    terms: &'a Terms,
) -> Result<(), NoMemory>
    ensures { OnOk result (waiting stack.new.items ≡ waiting stack.old.items ++ parts_of primed (listed terms.now)) }
{
    let items = terms.items();
    for term in items {
        push(stack, primed, term)?;
    }
    Ok(())
}

fn push_others<'a>(
    stack: &mut Vec<Pending<'a>>,
    primed: bool,
    others: &'a [Operand],
) -> Result<(), NoMemory>
    ensures { OnOk result (waiting stack.new.items ≡ waiting stack.old.items ++ parts_of primed (map (λ x. x.value) others.now)) }
{
    for operand in others {
        push(stack, primed, &operand.value)?;
    }
    Ok(())
}

fn push_operands<'a>(
    stack: &mut Vec<Pending<'a>>,
    primed: bool,
    operands: &'a Operands,
) -> Result<(), NoMemory>
    ensures { OnOk result (waiting stack.new.items ≡ waiting stack.old.items ++ parts_of primed (operand_list operands.now)) }
{
    let (first, others) = operands.parts();
    push(stack, primed, first)?;
    push_others(stack, primed, others)
}

fn push_chain<'a>(
    stack: &mut Vec<Pending<'a>>,
    primed: bool,
    operands: &'a Operands,
    last: &'a Term,
) -> Result<(), NoMemory>
    ensures { OnOk result (waiting stack.new.items ≡ waiting stack.old.items ++ (parts_of primed (operand_list operands.now) ++ part primed last.now ∷ [])) }
{
    push_operands(stack, primed, operands)?;
    push(stack, primed, last)
}

fn push_sets<'a>(
    stack: &mut Vec<Pending<'a>>,
    primed: bool,
    bounds: &'a Bounds,
) -> Result<(), NoMemory>
    ensures { OnOk result (waiting stack.new.items ≡ waiting stack.old.items ++ parts_of primed (set_list bounds.now)) }
{
    let items = bounds.items();
    for bound in items {
        push(stack, primed, &bound.set)?;
    }
    Ok(())
}

fn push_bound<'a>(
    stack: &mut Vec<Pending<'a>>,
    primed: bool,
    bounds: &'a Bounds,
    body: &'a Term,
) -> Result<(), NoMemory>
    ensures { OnOk result (waiting stack.new.items ≡ waiting stack.old.items ++ (parts_of primed (set_list bounds.now) ++ part primed body.now ∷ [])) }
{
    push_sets(stack, primed, bounds)?;
    push(stack, primed, body)
}

fn push_map<'a>(
    stack: &mut Vec<Pending<'a>>,
    primed: bool,
    value: &'a Term,
    bounds: &'a Bounds,
) -> Result<(), NoMemory>
    ensures { OnOk result (waiting stack.new.items ≡ waiting stack.old.items ++ (part primed value.now ∷ [] ++ parts_of primed (set_list bounds.now))) }
{
    push(stack, primed, value)?;
    push_sets(stack, primed, bounds)
}

fn push_values<'a>(
    stack: &mut Vec<Pending<'a>>,
    primed: bool,
    fields: &'a Fields,
) -> Result<(), NoMemory>
    ensures { OnOk result (waiting stack.new.items ≡ waiting stack.old.items ++ parts_of primed (value_list fields.now)) }
{
    let items = fields.items();
    for field in items {
        push(stack, primed, &field.value)?;
    }
    Ok(())
}

fn push_arms<'a>(stack: &mut Vec<Pending<'a>>, primed: bool, arms: &'a Arms) -> Result<(), NoMemory>
    ensures { OnOk result (waiting stack.new.items ≡ waiting stack.old.items ++ parts_of primed (arm_list arms.now)) }
{
    let items = arms.items();
    for arm in items {
        push_two(stack, primed, &arm.test, &arm.value, primed)?;
    }
    Ok(())
}

fn push_case<'a>(
    stack: &mut Vec<Pending<'a>>,
    primed: bool,
    arms: &'a Arms,
    other: &'a Term,
) -> Result<(), NoMemory>
    ensures { OnOk result (waiting stack.new.items ≡ waiting stack.old.items ++ (parts_of primed (arm_list arms.now) ++ part primed other.now ∷ [])) }
{
    push_arms(stack, primed, arms)?;
    push(stack, primed, other)
}

fn either(first: bool, second: bool) -> bool
    ensures { result ≡ (first || second) }
{
    first || second
}

fn is_prime(step: &Step) -> bool
    ensures { result ≡ is_prime (step_view step.now) }
{
    match step {
        Step::Prime => true,
        Step::Index(_) => false,
        Step::Field(_) => false,
    }
}

fn push_step<'a>(stack: &mut Vec<Pending<'a>>, primed: bool, step: &'a Step) -> Result<(), NoMemory>
    ensures { OnOk result (waiting stack.new.items ≡ waiting stack.old.items ++ step_parts primed (step_view step.now)) }
{
    match step {
        Step::Index(terms) => push_terms(stack, primed, terms),
        Step::Prime => Ok(()),
        Step::Field(_) => Ok(()),
    }
}

/// Puts the terms in steps on the stack, the last step first.
fn push_steps<'a>(
    stack: &mut Vec<Pending<'a>>,
    primed: bool,
    steps: &'a [StepAt],
) -> Result<(), NoMemory>
    ensures { OnOk result (waiting stack.new.items ≡ waiting stack.old.items ++ steps_parts primed (steps_of steps.now)) }
{
    let mut under = primed;
    let mut left = steps.len();
    while left > 0 {
        left -= 1;
        let step = &steps[left].step;
        push_step(stack, under, step)?;
        under = either(under, is_prime(step));
    }
    Ok(())
}

fn has_prime(steps: &Steps) -> bool
    ensures { result ≡ has_prime steps.now }
{
    let items = steps.items();
    let mut found = false;
    for step in items {
        found = either(found, is_prime(&step.step));
    }
    found
}

fn push_path<'a>(
    stack: &mut Vec<Pending<'a>>,
    primed: bool,
    path: &'a Steps,
    value: &'a Term,
) -> Result<(), NoMemory>
    ensures { OnOk result (waiting stack.new.items ≡ waiting stack.old.items ++ (steps_parts primed path.now ++ part primed value.now ∷ [])) }
{
    push_steps(stack, primed, path.items())?;
    push(stack, primed, value)
}

fn push_changes<'a>(
    stack: &mut Vec<Pending<'a>>,
    primed: bool,
    changes: &'a Changes,
) -> Result<(), NoMemory>
    ensures { OnOk result (waiting stack.new.items ≡ waiting stack.old.items ++ change_parts primed changes.now) }
{
    let items = changes.items();
    for change in items {
        push_path(stack, primed, &change.path, &change.value)?;
    }
    Ok(())
}

fn push_except<'a>(
    stack: &mut Vec<Pending<'a>>,
    primed: bool,
    base: &'a Term,
    changes: &'a Changes,
) -> Result<(), NoMemory>
    ensures { OnOk result (waiting stack.new.items ≡ waiting stack.old.items ++ (part primed base.now ∷ [] ++ change_parts primed changes.now)) }
{
    push(stack, primed, base)?;
    push_changes(stack, primed, changes)
}

fn push_postfix<'a>(
    stack: &mut Vec<Pending<'a>>,
    primed: bool,
    base: &'a Term,
    steps: &'a Steps,
    last: &'a Step,
) -> Result<(), NoMemory>
    ensures { OnOk result (waiting stack.new.items ≡ waiting stack.old.items ++ (part ((primed || is_prime (step_view last.now)) || has_prime steps.now) base.now ∷ [] ++ step_parts primed (step_view last.now) ++ steps_parts (primed || is_prime (step_view last.now)) steps.now)) }
{
    let under = either(primed, is_prime(last));
    push(stack, either(under, has_prime(steps)), base)?;
    push_step(stack, primed, last)?;
    push_steps(stack, under, steps.items())
}

fn primes(operator: PrefixOperator) -> bool
    ensures { result ≡ primes operator }
{
    match operator {
        PrefixOperator::Unchanged => true,
        PrefixOperator::Not
        | PrefixOperator::Enabled
        | PrefixOperator::Always
        | PrefixOperator::Eventually
        | PrefixOperator::Powerset
        | PrefixOperator::BigUnion
        | PrefixOperator::Domain
        | PrefixOperator::Negate => false,
    }
}

/// Puts the parts of a term on the stack.
pub fn push_parts<'a>(
    stack: &mut Vec<Pending<'a>>,
    primed: bool,
    node: &'a TermNode,
) -> Result<(), NoMemory>
    ensures { OnOk result (waiting stack.new.items ≡ waiting stack.old.items ++ parts primed (node_view node.now)) }
{
    match node {
        TermNode::Known(_) => Ok(()),
        TermNode::Named(_) => Ok(()),
        TermNode::Variable(_) => Ok(()),
        TermNode::Slot(_) => Ok(()),
        TermNode::Use(_, terms) => push_terms(stack, primed, terms),
        TermNode::Standard(_, terms) => push_terms(stack, primed, terms),
        TermNode::Parenthesized(term) => push(stack, primed, term),
        TermNode::Scoped(_, term) => push(stack, primed, term),
        TermNode::All(terms) => push_terms(stack, primed, terms),
        TermNode::Any(terms) => push_terms(stack, primed, terms),
        TermNode::Prefix(operator, term) => push(stack, either(primed, primes(*operator)), term),
        TermNode::Infix(_, operands, last) => push_chain(stack, primed, operands, last),
        TermNode::Postfix(base, steps, last) => push_postfix(stack, primed, base, steps, last),
        TermNode::SetOf(terms) => push_terms(stack, primed, terms),
        TermNode::Filter(set, test) => push_two(stack, primed, set, test, primed),
        TermNode::Map(value, bounds) => push_map(stack, primed, value, bounds),
        TermNode::Tuple(terms) => push_terms(stack, primed, terms),
        TermNode::Function(bounds, value) => push_bound(stack, primed, bounds, value),
        TermNode::FunctionSet(set, value) => push_two(stack, primed, set, value, primed),
        TermNode::Record(fields) => push_values(stack, primed, fields),
        TermNode::RecordSet(fields) => push_values(stack, primed, fields),
        TermNode::Except(base, changes) => push_except(stack, primed, base, changes),
        TermNode::Quantified(_, bounds, body) => push_bound(stack, primed, bounds, body),
        TermNode::Choose(set, test) => push_two(stack, primed, set, test, primed),
        TermNode::If(test, then, last) => push_three(stack, primed, test, then, last),
        TermNode::Case(arms, None) => push_arms(stack, primed, arms),
        TermNode::Case(arms, Some(other)) => push_case(stack, primed, arms, other),
        TermNode::BoxAction(action, subscript) => push_two(stack, primed, action, subscript, true),
        TermNode::AngleAction(action, subscript) => push_two(
            stack, primed, action, subscript, true,
        ),
        TermNode::Fairness(subscript, action) => push_two(stack, primed, subscript, action, primed),
    }
}
