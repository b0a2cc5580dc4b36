ghost use Rattle.std.specs.Prelude.{◌≡◌, ◌++◌, IfOk, OnOk, string_bytes};
ghost use Rattle.run_texts.specs.States.{in_order};
ghost use Rattle.run_texts.specs.Smoke.{ends_text, last_behind, smoke_text};

use crate::order::in_order;
use crate::states::push_shown;
use base_core::{Names, NoMemory};
use states_core::{Behaviour, Shown};
use std::alloc::Global;

/// The report of the smoke test over so many lines: the number of states in the widest layer, and the first and the last state.
pub fn smoke_text(
    alloc: Global,
    lines: u32,
    widest: usize,
    names: &Names,
    behaviour: &Behaviour,
) -> Result<String, NoMemory>
    ensures { IfOk result (λ t. string_bytes t ≡ smoke_text lines widest names.now behaviour.now) }
{
    let order = in_order(alloc, names)?;
    let mut text = format!(in alloc; "SELFRUN {lines} widest={widest}")?;
    text.push_str(" check=valid\n")?;
    push_ends(alloc, &mut text, names, &order, behaviour.items())?;
    Ok(text)
}

/// Adds the lines of the first and of the last state.
fn push_ends(
    alloc: Global,
    text: &mut String,
    names: &Names,
    order: &[usize],
    states: &[Shown],
) -> Result<(), NoMemory>
    requires { order.now ≡ in_order names.now }
    ensures { OnOk result (string_bytes text.new ≡ string_bytes text.old ++ ends_text names.now states.now) }
{
    match states {
        [] => Ok(()),
        [first, rest @ ..] => {
            push_shown(alloc, text, names, order, first)?;
            push_shown(alloc, text, names, order, last_behind(first, rest))
        }
    }
}

/// The last of states, the first of which is this one.
fn last_behind<'a>(first: &'a Shown, rest: &'a [Shown]) -> &'a Shown
    ensures { result.now ≡ last_behind first.now rest.now }
{
    let mut last = first;
    for shown in rest {
        last = shown;
    }
    last
}
