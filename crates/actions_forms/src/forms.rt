//! What an action leaves fixed.

ghost use Rattle.std.specs.Prelude.{◌≡◌, ◌≤◌, length};
ghost use Rattle.names_term_parts.specs.Slots.{MentionsBelow, UsesSmaller};
ghost use Rattle.actions_early_reads.specs.Orderly.{IsSoundThroughout};
ghost use Rattle.actions_early_reads.specs.Sets.{shown};
ghost use Rattle.actions_forms.specs.Says.{FormSays, SaysFixed, WholeSays, setting};

use crate::endings::Endings;
use crate::rows::fixed_in;
use actions_early_reads::{Walk, all_reads, least_missing, not_fixed};
use actions_meanings::{FormFault, Which};
use names_terms::{Operators, Term};
use states_core::VarSet;
use std::alloc::Global;

/// What a term leaves fixed that uses definitions below a bound alone, where these are fixed before.
pub fn fixed_within<'a>(
    walk: &Walk<'a>,
    bound: usize,
    term: &'a Term,
    before: VarSet,
) -> Result<VarSet, FormFault>
    ensures { SaysFixed walk.now bound (shown before) term.now result }
{
    let mut endings = Endings::new(walk.alloc);
    fixed_in(walk, &mut endings, bound, term, before)
}

/// The variables that an action leaves fixed, from left to right, where these are fixed before; or the first thing that is wrong with its form.
pub fn fixed(
    alloc: Global,
    which: Which,
    variables: u16,
    operators: &Operators,
    term: &Term,
    before: VarSet,
) -> Result<VarSet, FormFault>
    requires few { variables ≤ 64 }
    requires smaller { UsesSmaller operators.now }
    requires below { MentionsBelow (length operators.now) term.now }
    requires orderly { IsSoundThroughout operators.now variables term.now }
    ensures { FormSays (setting which variables operators.now) term.now (shown before) result }
{
    match all_reads(alloc, operators) {
        Ok(reads) => {
            let walk = Walk {
                alloc,
                which,
                variables,
                operators,
                reads,
            };
            fixed_within(&walk, operators.len(), term, before)
        }
        Err(_) => Err(FormFault::NoMemory),
    }
}

/// The same of an action that must leave each variable fixed, as Init and Next.
pub fn whole(
    alloc: Global,
    which: Which,
    variables: u16,
    operators: &Operators,
    term: &Term,
    before: VarSet,
) -> Result<VarSet, FormFault>
    requires few { variables ≤ 64 }
    requires smaller { UsesSmaller operators.now }
    requires below { MentionsBelow (length operators.now) term.now }
    requires orderly { IsSoundThroughout operators.now variables term.now }
    ensures { WholeSays (setting which variables operators.now) term.now (shown before) result }
{
    match fixed(alloc, which, variables, operators, term, before) {
        Ok(set) => match not_fixed(term.at, least_missing(set, variables)) {
            None => Ok(set),
            Some(fault) => Err(fault),
        },
        Err(fault) => Err(fault),
    }
}
