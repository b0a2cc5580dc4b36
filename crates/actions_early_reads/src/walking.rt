//! What the walks over terms stand in.

ghost use Rattle.std.specs.Prelude.{◌≡◌, ◌+◌, ◌≤◌, [], IfOk, OnOk, ◌++◌, map, ℕ};
ghost use Rattle.std.specs.List.{flat_map};
ghost use Rattle.names_terms.specs.TermViews.{steps_of, step_view, terms_of};
ghost use Rattle.names_term_parts.specs.Parts.{part};
ghost use Rattle.names_term_parts.specs.Waiting.{waiting};
ghost use Rattle.names_term_parts.specs.Weights.{weight};
ghost use Rattle.actions_meanings.specs.Forms.{is_taken};
ghost use Rattle.actions_meanings.specs.Reads.{path_terms, step_terms};
ghost use Rattle.names_terms.specs.Lists.{terms_list};
ghost use Rattle.actions_early_reads.specs.Follow.{IsBehind, IsBody};
ghost use Rattle.actions_early_reads.specs.Weight.{weights};
ghost use Rattle.actions_early_reads.specs.Ready.{TellsUnread, table_of};
ghost use Rattle.actions_early_reads.specs.Sets.{shown};

use crate::reading::{Reads, reads_all};
use crate::sets::least_outside;
use actions_meanings::Which;
use base_core::NoMemory;
use names_term_parts::{Pending, push, push_terms};
use names_terms::{Level, Operators, Step, StepAt, Term, TermNode};
use states_core::VarSet;
use std::alloc::Global;

/// What is taken apart, in a specification with so many variables and these definitions, and what the definitions read.
#[derive(Drop)]
pub struct Walk<'a> {
    pub alloc: Global,
    pub which: Which,
    pub variables: u16,
    pub operators: &'a Operators,
    pub reads: Vec<Reads>,
}

/// Whether terms of a level are taken apart.
pub fn is_taken(which: Which, level: Level) -> bool
    ensures { result ≡ is_taken which level }
{
    match level {
        Level::Constant => false,
        Level::State => match which {
            Which::Init => true,
            Which::Action => false,
        },
        Level::Action => true,
        Level::Temporal => false,
    }
}

/// Puts the terms in a step on the stack.
pub fn push_step<'a>(
    stack: &mut Vec<Pending<'a>>,
    primed: bool,
    step: &'a Step,
) -> Result<(), NoMemory>
    ensures { OnOk result (waiting stack.new.items ≡ waiting stack.old.items ++ map (part primed) (step_terms (step_view step.now))) }
{
    match step {
        Step::Prime => Ok(()),
        Step::Index(terms) => push_terms(stack, primed, terms),
        Step::Field(_) => Ok(()),
    }
}

/// Puts the terms in steps on the stack.
pub fn push_path<'a>(
    stack: &mut Vec<Pending<'a>>,
    primed: bool,
    steps: &'a [StepAt],
) -> Result<(), NoMemory>
    ensures { OnOk result (waiting stack.new.items ≡ waiting stack.old.items ++ map (part primed) (flat_map (λ s. step_terms (step_view s.step)) steps.now)) }
{
    for step in steps {
        push_step(stack, primed, &step.step)?;
    }
    Ok(())
}

/// The definition whose body stands behind a name of level 1 without arguments, if it is below a bound.
fn named(bound: usize, term: &Term) -> Option<usize>
    ensures { IsBody bound term.now result }
{
    match term.level {
        Level::State => match &*term.node {
            TermNode::Use(number, terms) => {
                if terms.is_empty() && number.0 < bound {
                    return Some(number.0);
                }
                None
            }
            _ => None,
        },
        Level::Constant | Level::Action | Level::Temporal => None,
    }
}

impl<'a> Walk<'a> {
    /// What stands behind a name, and the bound of the definitions that it uses.
    pub fn behind(&self, bound: usize, term: &'a Term) -> (usize, &'a Term)
        ensures same { IsBehind (table_of self.now) bound term.now result.0 result.1.now }
        ensures lighter { weight result.1.now + weights (table_of self.now) result.0 ≤ weight term.now + weights (table_of self.now) bound }
    {
        match named(bound, term) {
            Some(number) => match self.operators.get(number) {
                Some(operator) => self.behind(number, &operator.body),
                None => (bound, term),
            },
            None => (bound, term),
        }
    }

    /// The least variable that is read under a prime by a term with steps behind it, and that is not fixed.
    pub fn unread(
        &self,
        base: &Term,
        steps: &[StepAt],
        before: VarSet,
    ) -> Result<Option<u16>, NoMemory>
        ensures { (bound : ℕ) → IfOk result (λ o. TellsUnread self.now bound (shown before) base.now (steps_of steps.now) o) }
    {
        let mut stack = Vec::new(self.alloc);
        push(&mut stack, true, base)?;
        push_path(&mut stack, true, steps)?;
        let read = reads_all(&self.reads, stack)?;
        Ok(least_outside(before, read, self.variables))
    }
}
