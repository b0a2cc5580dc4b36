ghost use Rattle.std.specs.Prelude.{◌≡◌, ◌++◌, OnOk, slice_get, string_bytes};
ghost use Rattle.states_core.specs.declared.state.Mark.TheVariants as mark;
ghost use Rattle.run_texts.specs.States.{in_order, value_text, field_text, more_text, fields_text, state_text, before_text, behind_text, states_text, faulty_text};

use crate::places::name_at;
use crate::quoting::push_quoted;
use base_core::{LineAt, Names, NoMemory};
use states_core::{Behaviour, Mark, Shown, State};
use std::alloc::Global;
use values_json::push_json;

/// Adds the lines of states.
pub(crate) fn push_states(
    alloc: Global,
    text: &mut String,
    names: &Names,
    order: &[usize],
    behaviour: &Behaviour,
) -> Result<(), NoMemory>
    requires { order.now ≡ in_order names.now }
    ensures { OnOk result (string_bytes text.new ≡ string_bytes text.old ++ states_text names.now behaviour.now) }
{
    for shown in behaviour.items() {
        push_shown(alloc, text, names, order, shown)?;
    }
    Ok(())
}

pub(crate) fn push_shown(
    alloc: Global,
    text: &mut String,
    names: &Names,
    order: &[usize],
    shown: &Shown,
) -> Result<(), NoMemory>
    requires { order.now ≡ in_order names.now }
    ensures { OnOk result (string_bytes text.new ≡ string_bytes text.old
        ++ (before_text shown.now.mark ++ state_text names.now shown.now.state ++ behind_text shown.now.mark)) }
{
    push_before(text, shown.mark)?;
    push_state(alloc, text, names, order, &shown.state)?;
    push_behind(text, shown.mark)
}

fn push_before(text: &mut String, mark: Mark) -> Result<(), NoMemory>
    ensures { OnOk result (string_bytes text.new ≡ string_bytes text.old ++ before_text mark) }
{
    match mark {
        Mark::Line(at) => push_line_at(text, at),
        Mark::Init | Mark::Silent => text.push_str("{\"state\":"),
    }
}

fn push_line_at(text: &mut String, at: LineAt) -> Result<(), NoMemory>
    ensures { OnOk result (string_bytes text.new ≡ string_bytes text.old ++ before_text (mark.Line at)) }
{
    let file = at.file;
    let line = at.line;
    write!(text, "{{\"file\":{file},\"line\":{line}")?;
    text.push_str(",\"state\":")
}

fn push_behind(text: &mut String, mark: Mark) -> Result<(), NoMemory>
    ensures { OnOk result (string_bytes text.new ≡ string_bytes text.old ++ behind_text mark) }
{
    text.push_str(match mark {
        Mark::Init => ",\"step\":\"init\"}\n",
        Mark::Silent => ",\"step\":\"silent\"}\n",
        Mark::Line(_) => ",\"step\":\"line\"}\n",
    })
}

/// Adds a state.
pub fn push_state(
    alloc: Global,
    text: &mut String,
    names: &Names,
    order: &[usize],
    state: &State,
) -> Result<(), NoMemory>
    requires { order.now ≡ in_order names.now }
    ensures { OnOk result (string_bytes text.new ≡ string_bytes text.old ++ state_text names.now state.now) }
{
    text.push_str("{")?;
    push_fields(alloc, text, names, order, state)?;
    text.push_str("}")
}

fn push_fields(
    alloc: Global,
    text: &mut String,
    names: &Names,
    order: &[usize],
    state: &State,
) -> Result<(), NoMemory>
    ensures { OnOk result (string_bytes text.new ≡ string_bytes text.old ++ fields_text names.now state.now order.now) }
{
    match order {
        [] => Ok(()),
        [first, rest @ ..] => {
            push_field(alloc, text, names, *first, state)?;
            push_more(alloc, text, names, rest, state)
        }
    }
}

fn push_more(
    alloc: Global,
    text: &mut String,
    names: &Names,
    order: &[usize],
    state: &State,
) -> Result<(), NoMemory>
    ensures { OnOk result (string_bytes text.new ≡ string_bytes text.old ++ more_text names.now state.now order.now) }
{
    for number in order {
        text.push_str(",")?;
        push_field(alloc, text, names, *number, state)?;
    }
    Ok(())
}

fn push_field(
    alloc: Global,
    text: &mut String,
    names: &Names,
    number: usize,
    state: &State,
) -> Result<(), NoMemory>
    ensures { OnOk result (string_bytes text.new ≡ string_bytes text.old ++ field_text names.now state.now number) }
{
    push_quoted(alloc, text, name_at(names, number))?;
    text.push_str(":")?;
    push_value(alloc, text, number, state)
}

fn push_value(
    alloc: Global,
    text: &mut String,
    number: usize,
    state: &State,
) -> Result<(), NoMemory>
    ensures { OnOk result (string_bytes text.new ≡ string_bytes text.old ++ value_text (slice_get state.now number)) }
{
    match state.get(number) {
        Some(value) => push_json(alloc, text, value),
        None => Ok(()),
    }
}

/// Adds the line of a state at which an evaluation faults.
pub(crate) fn push_faulty(
    alloc: Global,
    text: &mut String,
    names: &Names,
    order: &[usize],
    state: &State,
) -> Result<(), NoMemory>
    requires { order.now ≡ in_order names.now }
    ensures { OnOk result (string_bytes text.new ≡ string_bytes text.old ++ faulty_text names.now state.now) }
{
    text.push_str("{\"state\":")?;
    push_state(alloc, text, names, order, state)?;
    text.push_str(",\"step\":\"fault\"}\n")
}
