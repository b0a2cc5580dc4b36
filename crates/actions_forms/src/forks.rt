//! IFs whose other arm is an IF again: from the innermost to the outermost, so that a long chain of them takes no stack.

ghost use Rattle.std.specs.Prelude.{◌≡◌, ◌++◌, ◌∷◌, [], MatchResult, Ok};
ghost use Rattle.actions_meanings.specs.declared.fault.FormFault.TheVariants.{NoMemory};
ghost use Rattle.actions_meanings.specs.Outcomes.{together};
ghost use Rattle.actions_forms.specs.Forks.{closed, fork_arms};
ghost use Rattle.actions_forms.specs.Says.{Says};
ghost use Rattle.actions_early_reads.specs.Sets.{shown};

use crate::arms::{Arm, together_two};
use actions_meanings::FormFault;
use base_core::Place;
use states_core::VarSet;
use std::alloc::Global;

/// An IF: where its first arm stands, what that leaves fixed, and where the other arm stands.
#[derive(Clone, Copy, Drop)]
pub struct Fork {
    pub at: Place,
    pub set: VarSet,
    pub other: Place,
}

/// What an IF leaves fixed, where its other arm leaves a set fixed.
fn joined(variables: u16, before: VarSet, fork: Fork, set: VarSet) -> Result<VarSet, FormFault>
    ensures { Says result (together variables (shown before) (fork_arms fork (shown set))) }
{
    let first = Arm {
        at: fork.at,
        set: fork.set,
    };
    let second = Arm {
        at: fork.other,
        set,
    };
    together_two(before, first, second, variables)
}

/// What the outermost IF leaves fixed, where the other arm of the innermost leaves a set fixed.
pub fn closed(
    variables: u16,
    before: VarSet,
    forks: Vec<Fork>,
    last: VarSet,
) -> Result<VarSet, FormFault>
    ensures { Says result (closed variables (shown before) forks.items (Ok (shown last))) }
{
    let mut forks = forks;
    let mut set = last;
    while let Some(fork) = forks.pop() {
        match joined(variables, before, fork, set) {
            Ok(more) => set = more,
            Err(fault) => return Err(fault),
        }
    }
    Ok(set)
}

/// One IF.
pub fn first_fork(alloc: Global, fork: Fork) -> Result<Vec<Fork>, FormFault>
    ensures { MatchResult result (λ forks. forks.items ≡ fork ∷ []) (λ f. f ≡ NoMemory) }
{
    let mut forks = Vec::new(alloc);
    match push_fork(&mut forks, fork) {
        Ok(()) => Ok(forks),
        Err(fault) => Err(fault),
    }
}

/// Adds an IF at the end.
pub fn push_fork(forks: &mut Vec<Fork>, fork: Fork) -> Result<(), FormFault>
    ensures { MatchResult result (λ u. forks.new.items ≡ forks.old.items ++ fork ∷ []) (λ f. f ≡ NoMemory) }
{
    match forks.push(fork) {
        Ok(()) => Ok(()),
        Err(_) => Err(FormFault::NoMemory),
    }
}
