//! Arms of a choice, which must fix the same variables.

ghost use Rattle.std.specs.Prelude.{◌≡◌, ◌++◌, ◌∷◌, [], MatchResult, map};
ghost use Rattle.actions_meanings.specs.declared.fault.FormFault.TheVariants.{NoMemory};
ghost use Rattle.names_terms.specs.Terms.{place_of};
ghost use Rattle.actions_meanings.specs.Outcomes.{fixed_by_some, lacking, together};
ghost use Rattle.actions_forms.specs.Arms.{arm_of};
ghost use Rattle.actions_forms.specs.Says.{Says};
ghost use Rattle.actions_early_reads.specs.Sets.{shown};

use actions_early_reads::{least_outside, none, not_fixed, united};
use actions_meanings::FormFault;
use base_core::Place;
use names_terms::Term;
use states_core::VarSet;

/// Where an arm stands, and what it leaves fixed.
#[derive(Clone, Copy, Drop)]
pub struct Arm {
    pub at: Place,
    pub set: VarSet,
}

/// The variables that some arm fixes.
fn fixed_by_some(arms: &[Arm]) -> VarSet
    ensures { shown result ≡ fixed_by_some (map arm_of arms.now) }
{
    let mut all = none();
    for arm in arms {
        all = united(all, arm.set);
    }
    all
}

/// The first arm that lacks a variable of a set, and the least such variable.
fn lacking(all: VarSet, arms: &[Arm], variables: u16) -> Option<FormFault>
    ensures { result ≡ lacking variables (shown all) (map arm_of arms.now) }
{
    for arm in arms {
        if let Some(fault) = not_fixed(arm.at, least_outside(arm.set, all, variables)) {
            return Some(fault);
        }
    }
    None
}

/// What arms that start from a set leave fixed together.
pub fn together(before: VarSet, arms: &[Arm], variables: u16) -> Result<VarSet, FormFault>
    ensures { Says result (together variables (shown before) (map arm_of arms.now)) }
{
    match arms.first() {
        None => Ok(before),
        Some(first) => match lacking(fixed_by_some(arms), arms, variables) {
            Some(fault) => Err(fault),
            None => Ok(first.set),
        },
    }
}

/// What two arms leave fixed together.
pub fn together_two(
    before: VarSet,
    first: Arm,
    second: Arm,
    variables: u16,
) -> Result<VarSet, FormFault>
    ensures { Says result (together variables (shown before) (arm_of first ∷ arm_of second ∷ [])) }
{
    let arms = [first, second];
    together(before, &arms, variables)
}

/// What `[A]_v` leaves fixed: the action leaves one set fixed, and that the subscript is UNCHANGED, at the place of the whole, another.
pub fn boxed(
    before: VarSet,
    action: &Term,
    set: VarSet,
    at: Place,
    same: VarSet,
    variables: u16,
) -> Result<VarSet, FormFault>
    ensures { Says result (together variables (shown before) (record { at = place_of action.now; set = shown set } ∷ record { at = at; set = shown same } ∷ [])) }
{
    let first = Arm { at: action.at, set };
    let second = Arm { at, set: same };
    together_two(before, first, second, variables)
}

/// What the arms and one more leave fixed together.
pub fn together_with(
    before: VarSet,
    arms: Vec<Arm>,
    last: &Term,
    set: VarSet,
    variables: u16,
) -> Result<VarSet, FormFault>
    ensures { Says result (together variables (shown before) (map arm_of (arms.items ++ record { at = place_of last.now; set = set } ∷ []))) }
{
    let mut arms = arms;
    match push_arm(&mut arms, last, set) {
        Ok(()) => together(before, &arms, variables),
        Err(fault) => Err(fault),
    }
}

/// Adds an arm at the end.
pub fn push_arm(arms: &mut Vec<Arm>, term: &Term, set: VarSet) -> Result<(), FormFault>
    ensures { MatchResult result (λ u. arms.new.items ≡ arms.old.items ++ record { at = place_of term.now; set = set } ∷ []) (λ f. f ≡ NoMemory) }
{
    match arms.push(Arm { at: term.at, set }) {
        Ok(()) => Ok(()),
        Err(_) => Err(FormFault::NoMemory),
    }
}
