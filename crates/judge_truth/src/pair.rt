ghost use Rattle.std.specs.Prelude.{◌≡◌, [], map};
ghost use Rattle.eval_meanings.specs.Contexts.{within};
ghost use Rattle.eval_parts.specs.Scenes.{with_slots};
ghost use Rattle.actions_rows.specs.Rows.{setting as stage_setting};
ghost use Rattle.judge_truth.specs.Pairs.{at, setting};

use actions_meanings::Which;
use actions_rows::Stage;
use eval_parts::{Scene, with_slots};
use values_core::Value;

/// What an action is decided over: what is taken apart, Init or an action; how many variables there are; and the definitions, the slots and the
/// two states, which are one in Init.
#[derive(Clone, Copy, Drop)]
pub struct Pair<'a> {
    pub which: Which,
    pub variables: usize,
    pub scene: Scene<'a>,
}

/// The same with other slots.
pub fn pair_with<'a>(pair: Pair<'a>, slots: &'a [&'a Value]) -> Pair<'a>
    ensures setting { setting result ≡ setting pair.entry }
    ensures context { at result ≡ with_slots (at pair.entry) (map (λ v. v.now) slots.entry.now) }
{
    Pair {
        which: pair.which,
        variables: pair.variables,
        scene: with_slots(pair.scene, slots),
    }
}

/// The same with the outermost slots alone, so many of them, or all where there are fewer.
pub fn narrowed<'a>(pair: Pair<'a>, kept: usize) -> Pair<'a>
    ensures setting { setting result ≡ setting pair.entry }
    ensures context { at result ≡ within kept (at pair.entry) }
{
    let slots = pair.scene.slots;
    pair_with(pair, &slots[..kept.min(slots.len())])
}

/// The stage on which the forms of its terms are told: nothing is seen beside the two states.
pub fn stage_of(pair: Pair<'_>) -> Stage<'_>
    ensures setting { stage_setting result ≡ setting pair.entry }
    ensures state { result.state.now ≡ pair.entry.scene.state.now }
    ensures sees { result.sees.now ≡ [] }
{
    Stage {
        which: pair.which,
        variables: pair.variables,
        operators: pair.scene.operators,
        state: pair.scene.state,
        sees: &[],
    }
}
