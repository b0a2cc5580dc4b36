//! Reads that come too early.
//!
//! The terms of a text are walked from its end to its start, and what is found on the left takes the place of what was found before.

ghost use Rattle.std.specs.Prelude.{◌≡◌, ◌++◌, ◌<◌, ◌∷◌, ℕ, [], IfOk, OnOk, Some, false, if◌then◌else◌, map};
ghost use Rattle.names_terms.specs.Terms.{Postfix, place_of};
ghost use Rattle.names_terms.specs.Lists.{terms_list};
ghost use Rattle.names_terms.specs.TermViews.{node_view, step_view, steps_of};
ghost use Rattle.eval_meanings.specs.Functions.{steps_place};
ghost use Rattle.names_term_parts.specs.Parts.{is_prime, part, parts_of, set_list};
ghost use Rattle.names_term_parts.specs.Waiting.{waiting};
ghost use Rattle.actions_meanings.specs.Outcomes.{early_variable, or_else};
ghost use Rattle.actions_early_reads.specs.Known.{AreKnown};
ghost use Rattle.actions_early_reads.specs.Opened.{Opens, TellsBody, TellsFirst, TellsPrimed, TellsTerms};
ghost use Rattle.actions_early_reads.specs.Primes.{IsLastPrime};
ghost use Rattle.actions_early_reads.specs.Ready.{TellsEarly};
ghost use Rattle.actions_early_reads.specs.Sets.{shown};
ghost use Rattle.actions_early_reads.specs.Paths.{change_terms};

use crate::bodies::Bodies;
use crate::faults::too_early;
use crate::kinds::{Row, row_of};
use crate::unchanged::unless_in;
use crate::walking::{Walk, is_taken, push_path, push_step};
use actions_meanings::{FormFault, Which};
use base_core::{NoMemory, Place};
use names_term_parts::{Pending, push, push_parts, push_terms};
use names_terms::{Bounds, Changes, Step, StepAt, Steps, Term, TermNode, Terms};
use states_core::VarSet;

/// The first of two faults.
pub fn or_else(first: Option<FormFault>, second: Option<FormFault>) -> Option<FormFault>
    ensures { result ≡ or_else first second }
{
    match first {
        None => second,
        Some(fault) => Some(fault),
    }
}

/// A variable itself, which in an action is read of the state before.
pub fn early_variable(which: Which, at: Place, variable: u16, before: VarSet) -> Option<FormFault>
    ensures { result ≡ early_variable which (shown before) at variable }
{
    match which {
        Which::Init => too_early(at, unless_in(before, variable)),
        Which::Action => None,
    }
}

fn push_changes<'a>(stack: &mut Vec<Pending<'a>>, changes: &'a Changes) -> Result<(), NoMemory>
    ensures { OnOk result (waiting stack.new.items ≡ waiting stack.old.items ++ map (part false) (change_terms changes.now)) }
{
    let items = changes.items();
    for change in items {
        push_path(stack, false, change.path.items())?;
        push(stack, false, &change.value)?;
    }
    Ok(())
}

fn push_except<'a>(
    stack: &mut Vec<Pending<'a>>,
    base: &'a Term,
    changes: &'a Changes,
) -> Result<(), NoMemory>
    ensures { OnOk result (waiting stack.new.items ≡ waiting stack.old.items ++ part false base.now ∷ map (part false) (change_terms changes.now)) }
{
    push(stack, false, base)?;
    push_changes(stack, changes)
}

fn push_sets<'a>(stack: &mut Vec<Pending<'a>>, bounds: &'a Bounds) -> Result<(), NoMemory>
    ensures { OnOk result (waiting stack.new.items ≡ waiting stack.old.items ++ parts_of false (set_list bounds.now)) }
{
    let items = bounds.items();
    for bound in items {
        push(stack, false, &bound.set)?;
    }
    Ok(())
}

fn is_prime(step: &Step) -> bool
    ensures { result ≡ is_prime (step_view step.now) }
{
    match step {
        Step::Prime => true,
        Step::Index(_) => false,
        Step::Field(_) => false,
    }
}

fn later(found: Option<usize>, index: usize, prime: bool) -> Option<usize>
    ensures { result ≡ (if prime then Some index else found) }
{
    if prime {
        return Some(index);
    }
    found
}

/// The index of the last prime.
fn last_prime(steps: &[StepAt]) -> Option<usize>
    ensures { IsLastPrime steps.now result }
{
    let mut found = None;
    for index in 0..steps.len() {
        found = later(found, index, is_prime(&steps[index].step));
    }
    found
}

/// The place of a primary with steps behind it.
fn place_behind(base: &Term, steps: &[StepAt]) -> Place
    ensures { result ≡ steps_place (place_of base.now) (steps_of steps.now) }
{
    match steps.last() {
        Some(step) => step.at,
        None => base.at,
    }
}

impl<'a> Walk<'a> {
    /// What is wrong with all that stands before a prime.
    fn primed(
        &self,
        base: &Term,
        steps: &[StepAt],
        before: VarSet,
    ) -> Result<Option<FormFault>, NoMemory>
        ensures { (bound : ℕ) → IfOk result (λ o. TellsPrimed self.now bound (shown before) base.now (steps_of steps.now) o) }
    {
        let variable = self.unread(base, steps, before)?;
        Ok(too_early(place_behind(base, steps), variable))
    }

    /// A primary with steps.
    fn postfix_row(
        &self,
        stack: &mut Vec<Pending<'a>>,
        base: &'a Term,
        steps: &'a Steps,
        last: &'a Step,
        before: VarSet,
        found: Option<FormFault>,
    ) -> Result<Option<FormFault>, NoMemory>
        ensures { (bound : ℕ) (at : Place) → IfOk result (λ o. Opens self.now bound (shown before) at (Postfix base.now steps.now (step_view last.now)) found o (waiting stack.old.items) (waiting stack.new.items)) }
    {
        let items = steps.items();
        if is_prime(last) {
            let fault = self.primed(base, items, before)?;
            return Ok(or_else(fault, found));
        }
        match last_prime(items) {
            None => {
                push(stack, false, base)?;
                push_path(stack, false, items)?;
                push_step(stack, false, last)?;
                Ok(found)
            }
            Some(index) => {
                let fault = self.primed(base, &items[..index], before)?;
                if let Some(early) = fault {
                    return Ok(Some(early));
                }
                push_path(stack, false, &items[index + 1..])?;
                push_step(stack, false, last)?;
                Ok(found)
            }
        }
    }

    /// The first read that is too early, where these variables are fixed.
    pub fn early(
        &self,
        bound: usize,
        term: &'a Term,
        before: VarSet,
    ) -> Result<Option<FormFault>, NoMemory>
        ensures { IfOk result (λ o. TellsEarly self.now bound (shown before) term.now o) }
    {
        let mut known = Bodies::new(self.alloc);
        self.early_in(&mut known, bound, term, before)
    }

    /// The first read that is too early among terms that wait on a stack.
    pub fn early_all(
        &self,
        bound: usize,
        stack: Vec<Pending<'a>>,
        before: VarSet,
    ) -> Result<Option<FormFault>, NoMemory>
        ensures { IfOk result (λ o. TellsFirst self.now bound (shown before) (waiting stack.entry.items) o) }
    {
        let mut known = Bodies::new(self.alloc);
        self.early_rest(&mut known, bound, stack, before)
    }

    /// The first read of a term that is too early, where some is known of bodies.
    #[cycle(early)]
    fn early_in(
        &self,
        known: &mut Bodies,
        bound: usize,
        term: &'a Term,
        before: VarSet,
    ) -> Result<Option<FormFault>, NoMemory>
        requires known { AreKnown self.now (shown before) known.old }
        ensures tells { IfOk result (λ o. TellsEarly self.now bound (shown before) term.now o) }
        ensures known { OnOk result (AreKnown self.now (shown before) known.new) }
    {
        let mut stack = Vec::new(self.alloc);
        push(&mut stack, false, term)?;
        self.early_rest(known, bound, stack, before)
    }

    /// The same among terms that wait on a stack.
    #[cycle(early)]
    fn early_rest(
        &self,
        known: &mut Bodies,
        bound: usize,
        stack: Vec<Pending<'a>>,
        before: VarSet,
    ) -> Result<Option<FormFault>, NoMemory>
        requires known { AreKnown self.now (shown before) known.old }
        ensures tells { IfOk result (λ o. TellsFirst self.now bound (shown before) (waiting stack.entry.items) o) }
        ensures known { OnOk result (AreKnown self.now (shown before) known.new) }
    {
        let mut found = None;
        let mut stack = stack;
        while let Some(pending) = stack.pop() {
            let part = pending.term;
            if !is_taken(self.which, part.level) {
                continue;
            }
            found = self.early_row(
                known,
                bound,
                &mut stack,
                part.at,
                &*part.node,
                before,
                found,
            )?;
        }
        Ok(found)
    }

    /// The first read that is too early among terms from left to right.
    pub fn early_terms(
        &self,
        bound: usize,
        terms: &'a Terms,
        before: VarSet,
    ) -> Result<Option<FormFault>, NoMemory>
        ensures { IfOk result (λ o. TellsTerms self.now bound (shown before) (terms_list terms.now) o) }
    {
        let mut stack = Vec::new(self.alloc);
        push_terms(&mut stack, false, terms)?;
        self.early_all(bound, stack, before)
    }

    /// The first read that is too early among the sets of bounds.
    pub fn early_sets(
        &self,
        bound: usize,
        bounds: &'a Bounds,
        before: VarSet,
    ) -> Result<Option<FormFault>, NoMemory>
        ensures { IfOk result (λ o. TellsTerms self.now bound (shown before) (set_list bounds.now) o) }
    {
        let mut stack = Vec::new(self.alloc);
        push_sets(&mut stack, bounds)?;
        self.early_all(bound, stack, before)
    }

    /// The body of a definition, which is walked once alone.
    #[cycle(early)]
    fn early_body(
        &self,
        known: &mut Bodies,
        bound: usize,
        number: usize,
        before: VarSet,
    ) -> Result<Option<FormFault>, NoMemory>
        requires known { AreKnown self.now (shown before) known.old }
        ensures tells { IfOk result (λ o. TellsBody self.now bound (shown before) number o) }
        ensures known { OnOk result (AreKnown self.now (shown before) known.new) }
    {
        if number >= bound {
            return Ok(None);
        }
        match known.of(number) {
            Some(found) => Ok(found),
            None => self.unknown_body(known, bound, number, before),
        }
    }

    /// The body of a definition that was not walked yet.
    #[cycle(early)]
    fn unknown_body(
        &self,
        known: &mut Bodies,
        bound: usize,
        number: usize,
        before: VarSet,
    ) -> Result<Option<FormFault>, NoMemory>
        requires below { number < bound }
        requires known { AreKnown self.now (shown before) known.old }
        ensures tells { IfOk result (λ o. TellsBody self.now bound (shown before) number o) }
        ensures known { OnOk result (AreKnown self.now (shown before) known.new) }
    {
        match self.operators.get(number) {
            Some(operator) => match self.early_in(known, number, &operator.body, before) {
                Ok(found) => known.noted(number, found),
                Err(refusal) => Err(refusal),
            },
            None => Ok(None),
        }
    }

    /// What is wrong with a row itself; its parts that are still to be walked go on the stack.
    #[cycle(early)]
    fn early_row(
        &self,
        known: &mut Bodies,
        bound: usize,
        stack: &mut Vec<Pending<'a>>,
        at: Place,
        node: &'a TermNode,
        before: VarSet,
        found: Option<FormFault>,
    ) -> Result<Option<FormFault>, NoMemory>
        requires known { AreKnown self.now (shown before) known.old }
        ensures tells { IfOk result (λ o. Opens self.now bound (shown before) at (node_view node.now) found o (waiting stack.old.items) (waiting stack.new.items)) }
        ensures known { OnOk result (AreKnown self.now (shown before) known.new) }
    {
        match row_of(node) {
            Row::Variable(variable) => {
                let own = early_variable(self.which, at, variable, before);
                Ok(or_else(own, found))
            }
            Row::Use(number, terms) => {
                let own = self.early_body(known, bound, number, before)?;
                push_terms(stack, false, terms)?;
                Ok(or_else(own, found))
            }
            Row::Postfix(base, steps, last) => {
                self.postfix_row(stack, base, steps, last, before, found)
            }
            Row::Unchanged(term) => {
                let own = self.stays(bound, at, term, before)?;
                Ok(or_else(own, found))
            }
            Row::Except(base, changes) => {
                push_except(stack, base, changes)?;
                Ok(found)
            }
            Row::BoxAction(action, subscript) => {
                let own = self.stays(bound, at, subscript, before)?;
                push(stack, false, action)?;
                Ok(or_else(own, found))
            }
            Row::AngleAction(action, subscript) => {
                let variable = self.unread_alone(subscript, before)?;
                push(stack, false, action)?;
                Ok(or_else(too_early(at, variable), found))
            }
            Row::Plain => {
                push_parts(stack, false, node)?;
                Ok(found)
            }
        }
    }
}
