//! Entries that come more than once in the layers of one line, so that none is gone on from twice.

ghost use Rattle.std.specs.Prelude.{◌≡◌, ℕ, [], IfErr, IfOk};
ghost use Rattle.std.specs.Option.{IfSome};
ghost use Rattle.states_layers.specs.Gives.{Gives, IsReached};
ghost use Rattle.states_layers.specs.Repeats.{AllKnown, IsKept, Keeps, Notes, lent};
ghost use Rattle.states_layers.specs.declared.steps.StepFault.TheVariants.{NoMemory};

use crate::member::Member;
use crate::sharing::SharedValues;
use crate::steps::{StepFault, Steps};
use indexmap::{IndexMap, IndexSet};
use std::alloc::{AllocError, Global};

/// Of entries of one line, all the entries to which a silent step leads, and how many these are together; and values that entries share.
#[derive(Drop)]
pub struct KnownSteps<E: Member> {
    pub lists: IndexMap<E, Vec<E>>,
    pub count: usize,
    pub values: SharedValues,
}

impl<E: Member> KnownSteps<E> {
    /// Nothing is known.
    pub fn new(alloc: Global) -> KnownSteps<E>
        ensures { result.lists.entries ≡ [] }
    {
        KnownSteps {
            lists: IndexMap::new(alloc),
            count: 0,
            values: SharedValues::new(alloc),
        }
    }
}

/// Notes that the entry is gone on from, and says whether it was before. Where none may come twice, nothing is noted.
pub fn is_repeated<'a, E: Member>(
    gone: &mut IndexSet<&'a E>,
    entry: &'a E,
    may_repeat: bool,
) -> Result<bool, AllocError>
    ensures { IfOk result (λ repeated. Notes (lent gone.old.keys) entry.now repeated (lent gone.new.keys)) }
{
    if !may_repeat {
        return Ok(false);
    }
    let is_new = gone.insert(entry)?;
    Ok(!is_new)
}

/// The entries to which a silent step leads from the entry. They are not searched for where they are known, and kept where that is asked for, as
/// long as no more than `bound` are kept.
pub fn silent_steps<S: Steps>(
    alloc: Global,
    steps: &S,
    entry: &S::Entry,
    bound: u32,
    known: &mut KnownSteps<S::Entry>,
    keeps: bool,
) -> Result<Vec<S::Entry>, StepFault>
    requires ready { S.ready steps.now }
    requires reached { (n : ℕ) × IsReached (S.system steps.now) n entry.now }
    requires known { AllKnown (S.system steps.now) S.Entry.eq known.old.lists.entries }
    ensures listed { Gives ((S.system steps.now).Silent entry.now) ((S.system steps.now).FaultSilent entry.now) (λ t. Unit {0}) bound result }
    ensures known { IfOk result (λ list. AllKnown (S.system steps.now) S.Entry.eq known.new.lists.entries) }
{
    match found(alloc, known, entry) {
        Ok(Some(list)) => return Ok(list),
        Ok(None) => {}
        Err(_) => return Err(StepFault::NoMemory),
    }
    match steps.silent(alloc, entry, bound) {
        Ok(list) => {
            let keeps = keeps && list.len() <= (bound as usize).saturating_sub(known.count);
            kept(alloc, known, entry, list, keeps)
        }
        Err(fault) => Err(fault),
    }
}

/// A copy of what is kept of the entry.
fn found<E: Member>(
    alloc: Global,
    known: &KnownSteps<E>,
    entry: &E,
) -> Result<Option<Vec<E>>, AllocError>
    ensures { IfOk result (λ o. IfSome o (λ list. IsKept E.eq known.now.lists.entries entry.now list.items)) }
{
    match known.lists.get(entry) {
        Some(list) => Ok(Some(copied(alloc, list)?)),
        None => Ok(None),
    }
}

/// The list, of which a copy is kept of the entry where that is asked for.
fn kept<E: Member>(
    alloc: Global,
    known: &mut KnownSteps<E>,
    entry: &E,
    list: Vec<E>,
    keeps: bool,
) -> Result<Vec<E>, StepFault>
    ensures list { IfOk result (λ given. given ≡ list) }
    ensures known { IfOk result (λ given. Keeps E.eq known.old.lists.entries entry.now list.items known.new.lists.entries) }
    ensures stopped { IfErr result (λ fault. fault ≡ NoMemory) }
{
    if !keeps {
        return Ok(list);
    }
    keep(alloc, known, entry, &list)?;
    Ok(list)
}

/// Keeps a copy of the list.
fn keep<E: Member>(
    alloc: Global,
    known: &mut KnownSteps<E>,
    entry: &E,
    list: &Vec<E>,
) -> Result<(), AllocError>
    ensures { IfOk result (λ done. Keeps E.eq known.old.lists.entries entry.now list.now.items known.new.lists.entries) }
{
    let list = copied(alloc, list)?;
    let entry = entry.copy(alloc)?;
    known.count = known.count.saturating_add(list.len());
    known.lists.insert(entry, list)?;
    Ok(())
}

fn copied<E: Member>(alloc: Global, list: &Vec<E>) -> Result<Vec<E>, AllocError>
    ensures { IfOk result (λ copies. copies.items ≡ list.now.items) }
{
    let mut copies = Vec::with_capacity(alloc, list.len())?;
    for entry in list {
        copies.push(entry.copy(alloc)?)?;
    }
    Ok(copies)
}
