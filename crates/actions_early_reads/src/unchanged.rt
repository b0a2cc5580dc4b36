//! What is UNCHANGED, and is read too early.

ghost use Rattle.std.specs.Prelude.{◌≡◌, ℕ, IfOk, None, Some, if◌then◌else◌};
ghost use Rattle.names_terms.specs.Terms.{NoSteps};
ghost use Rattle.actions_early_reads.specs.Opened.{TellsItems, TellsStays};
ghost use Rattle.actions_early_reads.specs.Ready.{TellsUnread};
ghost use Rattle.actions_early_reads.specs.Sets.{shown};

use crate::faults::too_early;
use crate::kinds::{Shape, shape_of};
use crate::reading::reads_of;
use crate::sets::{is_in, least_outside};
use crate::walking::Walk;
use actions_meanings::FormFault;
use base_core::{NoMemory, Place};
use names_terms::{Term, Terms};
use states_core::VarSet;

/// The variable, where it is not fixed.
pub fn unless_in(before: VarSet, variable: u16) -> Option<u16>
    ensures { result ≡ (if shown before variable then None else Some variable) }
{
    if is_in(before, variable) {
        return None;
    }
    Some(variable)
}

impl<'a> Walk<'a> {
    /// The least variable that is read by a term under a prime, and that is not fixed.
    pub fn unread_alone(&self, term: &Term, before: VarSet) -> Result<Option<u16>, NoMemory>
        ensures { (bound : ℕ) → IfOk result (λ o. TellsUnread self.now bound (shown before) term.now NoSteps o) }
    {
        let read = reads_of(self.alloc, &self.reads, true, term)?;
        Ok(least_outside(before, read, self.variables))
    }

    /// The first read that is too early where a term is UNCHANGED.
    #[cycle(stays)]
    pub fn stays(
        &self,
        bound: usize,
        at: Place,
        term: &'a Term,
        before: VarSet,
    ) -> Result<Option<FormFault>, NoMemory>
        ensures { IfOk result (λ o. TellsStays self.now bound (shown before) at term.now o) }
    {
        let (number, found) = self.behind(bound, term);
        match shape_of(&*found.node) {
            Shape::Variable(variable) => Ok(too_early(at, unless_in(before, variable))),
            Shape::Tuple(terms) => self.stays_all(number, at, terms, before),
            Shape::Other => {
                let variable = self.unread_alone(term, before)?;
                Ok(too_early(at, variable))
            }
        }
    }

    #[cycle(stays)]
    fn stays_all(
        &self,
        bound: usize,
        at: Place,
        terms: &'a Terms,
        before: VarSet,
    ) -> Result<Option<FormFault>, NoMemory>
        ensures { IfOk result (λ o. TellsItems self.now bound (shown before) at terms.now o) }
    {
        let items = terms.items();
        for item in items {
            match self.stays(bound, at, item, before) {
                Ok(None) => {}
                Ok(Some(fault)) => return Ok(Some(fault)),
                Err(refusal) => return Err(refusal),
            }
        }
        Ok(None)
    }
}
