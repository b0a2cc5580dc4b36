//! Functions that use themselves: which of them a term names, the sets of the names that they bind, and the names at a key.

ghost use Rattle.std.specs.Prelude.{◌≡◌, ◌++◌, IfOk, OnOk, Some, map, option_map, replicate};
ghost use Rattle.values_core.specs.Functions.{IsSequence, values_in};
ghost use Rattle.eval_meanings.specs.Recursion.{applied_by, names_at, recursion_at, recursion_of, sets_of_names};
ghost use Rattle.names_terms.specs.Lists.{bounds_list};
ghost use Rattle.names_terms.specs.Terms.{NoSteps};
ghost use Rattle.names_terms.specs.TermViews.{step_item, step_view};
ghost use Rattle.eval_parts.specs.Recursions.{HasNames, first_applied, seen};

use crate::scene::first_slots;
use names_terms::{Bounds, Operator, Operators, Own, Step, StepAt, Steps, Term, TermNode};
use std::alloc::{AllocError, Global};
use values_core::Value;

/// A function that uses itself: how many slots stand around its definition, which names it binds over which sets, and what it is there.
#[derive(Clone, Copy, Drop)]
pub struct Recursion<'a> {
    pub around: usize,
    pub bounds: &'a Bounds,
    pub value: &'a Term,
}

/// The function that a definition is, where it is marked as one that uses itself.
fn marked_so<'a>(operator: &'a Operator) -> Option<Recursion<'a>>
    ensures { option_map seen result ≡ recursion_at (Some operator.now) }
{
    match operator.own {
        Own::Apart => None,
        Own::Itself => None,
        Own::Function => match &*operator.body.node {
            TermNode::Function(bounds, value) => Some(Recursion {
                around: operator.outer,
                bounds,
                value,
            }),
            _ => None,
        },
    }
}

/// The function that uses itself and that a term names.
fn recursion_of<'a>(operators: &'a Operators, term: &Term) -> Option<Recursion<'a>>
    ensures { option_map seen result ≡ recursion_of operators.now term.now }
{
    match &*term.node {
        TermNode::Use(number, arguments) => {
            if arguments.len() > 0 {
                return None;
            }
            match operators.get(number.0) {
                Some(operator) => marked_so(operator),
                None => None,
            }
        }
        _ => None,
    }
}

/// The function that uses itself to which a step gives a key, where the step stands next behind the name of the function.
pub fn applied_by<'a>(
    operators: &'a Operators,
    base: &Term,
    steps: &Steps,
    step: &Step,
) -> Option<Recursion<'a>>
    ensures { option_map seen result ≡ applied_by operators.now base.now steps.now (step_view step.now) }
{
    if steps.is_empty() {
        return first_of(operators, base, step);
    }
    None
}

fn first_of<'a>(operators: &'a Operators, base: &Term, step: &Step) -> Option<Recursion<'a>>
    ensures { option_map seen result ≡ applied_by operators.now base.now NoSteps (step_view step.now) }
{
    match step {
        Step::Index(_) => recursion_of(operators, base),
        Step::Field(_) => None,
        Step::Prime => None,
    }
}

/// The function that uses itself to which the first of several steps gives a key.
pub fn first_applied<'a>(
    operators: &'a Operators,
    base: &Term,
    steps: &[StepAt],
) -> Option<Recursion<'a>>
    ensures { option_map seen result ≡ first_applied operators.now base.now (map step_item steps.now) }
{
    match steps.first() {
        Some(step) => first_of(operators, base, &step.step),
        None => None,
    }
}

/// The set of each name that bounds bind.
pub fn sets_of_names<'a>(alloc: Global, bounds: &'a Bounds) -> Result<Vec<&'a Term>, AllocError>
    ensures { IfOk result (λ sets. map (λ t. t.now) sets.items ≡ sets_of_names (bounds_list bounds.now)) }
{
    let mut sets = Vec::new(alloc);
    for bound in bounds.items() {
        push_times(&mut sets, &bound.set, bound.names)?;
    }
    Ok(sets)
}

/// Adds a term so many times.
fn push_times<'a>(sets: &mut Vec<&'a Term>, set: &'a Term, count: usize) -> Result<(), AllocError>
    ensures { OnOk result (map (λ t. t.now) sets.new.items ≡ map (λ t. t.now) sets.old.items ++ replicate count set.now) }
{
    for _ in 0..count {
        sets.push(set)?;
    }
    Ok(())
}

/// The slots, and behind them the values that the names of these sets have at a key.
pub fn slots_at<'a>(
    alloc: Global,
    slots: &[&'a Value],
    sets: &[&Term],
    key: &'a Value,
) -> Result<Vec<&'a Value>, AllocError>
    requires { HasNames (map (λ t. t.now) sets.now) key.now }
    ensures { IfOk result (λ all. map (λ v. v.now) all.items ≡ map (λ v. v.now) slots.now ++ names_at (map (λ t. t.now) sets.now) key.now) }
{
    let mut all = first_slots(alloc, slots, slots.len(), sets.len())?;
    let names = sets.len();
    if names == 1 {
        all.push(key)?;
        return Ok(all);
    }
    let values = items_of(key);
    for value in values {
        all.push(value)?;
    }
    Ok(all)
}

/// The values of a sequence.
fn items_of(sequence: &Value) -> &[Value]
    requires { IsSequence sequence.now }
    ensures { result.now ≡ values_in sequence.now }
{
    match sequence.items() {
        Some(values) => values,
        None => unreachable!(),
    }
}
