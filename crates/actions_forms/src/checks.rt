//! Checks that no read comes too early.

ghost use Rattle.std.specs.Prelude.{ℕ};
ghost use Rattle.names_terms.specs.Lists.{terms_list};
ghost use Rattle.names_term_parts.specs.Parts.{set_list};
ghost use Rattle.actions_forms.specs.Says.{Lets, LetsPrimed, LetsTerm, LetsTerms, SaysGiven, SaysKept, SaysStill, SaysTest};
ghost use Rattle.actions_early_reads.specs.Sets.{shown};

use actions_early_reads::{Walk, early_variable, too_early, with_any};
use actions_meanings::{FormFault, Which};
use base_core::Place;
use names_terms::{Bounds, Term, Terms};
use states_core::VarSet;

/// A fault that was found ends the walk.
fn stopped(found: Option<FormFault>) -> Result<(), FormFault>
    ensures { Lets result found }
{
    match found {
        None => Ok(()),
        Some(fault) => Err(fault),
    }
}

/// That nothing in a term is read too early.
pub fn unless_early<'a>(
    walk: &Walk<'a>,
    bound: usize,
    term: &'a Term,
    before: VarSet,
) -> Result<(), FormFault>
    ensures { LetsTerm walk.now bound (shown before) term.now result }
{
    match walk.early(bound, term, before) {
        Ok(found) => stopped(found),
        Err(_) => Err(FormFault::NoMemory),
    }
}

/// That nothing in terms is read too early.
pub fn unless_terms<'a>(
    walk: &Walk<'a>,
    bound: usize,
    terms: &'a Terms,
    before: VarSet,
) -> Result<(), FormFault>
    ensures { LetsTerms walk.now bound (shown before) (terms_list terms.now) result }
{
    match walk.early_terms(bound, terms, before) {
        Ok(found) => stopped(found),
        Err(_) => Err(FormFault::NoMemory),
    }
}

/// That nothing in the sets of bounds is read too early.
pub fn unless_sets<'a>(
    walk: &Walk<'a>,
    bound: usize,
    bounds: &'a Bounds,
    before: VarSet,
) -> Result<(), FormFault>
    ensures { LetsTerms walk.now bound (shown before) (set_list bounds.now) result }
{
    match walk.early_sets(bound, bounds, before) {
        Ok(found) => stopped(found),
        Err(_) => Err(FormFault::NoMemory),
    }
}

/// That all variables that a term reads under a prime are fixed.
pub fn unless_primed<'a>(
    walk: &Walk<'a>,
    at: Place,
    term: &'a Term,
    before: VarSet,
) -> Result<(), FormFault>
    ensures { (bound : ℕ) → LetsPrimed walk.now bound (shown before) at term.now result }
{
    match walk.unread_alone(term, before) {
        Ok(variable) => stopped(too_early(at, variable)),
        Err(_) => Err(FormFault::NoMemory),
    }
}

/// A term that is one test.
pub fn tested<'a>(
    walk: &Walk<'a>,
    bound: usize,
    term: &'a Term,
    before: VarSet,
) -> Result<VarSet, FormFault>
    ensures { SaysTest walk.now bound (shown before) term.now result }
{
    match unless_early(walk, bound, term, before) {
        Ok(()) => Ok(before),
        Err(fault) => Err(fault),
    }
}

/// A term whose value a variable has.
pub fn given<'a>(
    walk: &Walk<'a>,
    bound: usize,
    variable: u16,
    value: &'a Term,
    before: VarSet,
) -> Result<VarSet, FormFault>
    ensures { SaysGiven walk.now bound (shown before) variable value.now result }
{
    match unless_early(walk, bound, value, before) {
        Ok(()) => Ok(with_any(before, variable)),
        Err(fault) => Err(fault),
    }
}

/// A variable that is UNCHANGED.
pub fn kept(which: Which, at: Place, variable: u16, before: VarSet) -> Result<VarSet, FormFault>
    ensures { SaysKept which (shown before) at variable result }
{
    match stopped(early_variable(which, at, variable, before)) {
        Ok(()) => Ok(with_any(before, variable)),
        Err(fault) => Err(fault),
    }
}

/// A term that is UNCHANGED, and is one test.
pub fn still<'a>(
    walk: &Walk<'a>,
    bound: usize,
    at: Place,
    term: &'a Term,
    before: VarSet,
) -> Result<VarSet, FormFault>
    ensures { SaysStill walk.now bound (shown before) at term.now result }
{
    match walk.stays(bound, at, term, before) {
        Ok(None) => Ok(before),
        Ok(Some(fault)) => Err(fault),
        Err(_) => Err(FormFault::NoMemory),
    }
}
