//! Ends of branches, and lists of them.

ghost use Rattle.std.specs.Prelude.{◌≡◌, ◌++◌, ◌∷◌, [], IfOk, OnOk};
ghost use Rattle.steps_why_branches.specs.Traces.{why_at};
ghost use Rattle.steps_why_branches.specs.declared.why.Ended.TheVariants.{Ends};
ghost use Rattle.steps_why_walk.specs.Ends.{IsFaultEnd, OrNoMember};

use base_core::{NoMemory, Place};
use eval_meanings::EvalFault;
use std::alloc::{AllocError, Global};
use steps_why_branches::{Ended, Why, WhyKind};

/// It ends at the place, for the reason.
pub fn ends_at(at: Place, reason: WhyKind) -> Ended
    ensures { result ≡ Ends (why_at at reason) }
{
    Ended::Ends(Why {
        at: Some(at),
        reason,
    })
}

/// It ends with the fault of an evaluation; want of memory is none.
pub fn fault_end(fault: EvalFault) -> Result<Ended, NoMemory>
    ensures { IfOk result (IsFaultEnd fault) }
{
    match fault {
        EvalFault::Refused(kind, at) => Ok(ends_at(at, WhyKind::Fault(kind))),
        EvalFault::NoMemory => Err(AllocError),
    }
}

/// The end alone.
pub fn one_end(alloc: Global, end: Ended) -> Result<Vec<Ended>, NoMemory>
    ensures { IfOk result (λ ends. ends.items ≡ end ∷ []) }
{
    let mut ends = Vec::new(alloc);
    ends.push(end)?;
    Ok(ends)
}

/// The ends, or where there are none, that there is nothing to choose from.
pub fn or_no_member(alloc: Global, ends: Vec<Ended>, at: Place) -> Result<Vec<Ended>, NoMemory>
    ensures { IfOk result (λ all. OrNoMember at ends.items all.items) }
{
    if ends.is_empty() {
        return one_end(alloc, ends_at(at, WhyKind::NoMember));
    }
    Ok(ends)
}

/// Adds ends behind the others.
pub fn append(all: &mut Vec<Ended>, more: Vec<Ended>) -> Result<(), NoMemory>
    ensures { OnOk result (all.new.items ≡ all.old.items ++ more.items) }
{
    for end in more {
        all.push(end)?;
    }
    Ok(())
}
