//! The call in which a part stands.

ghost use Rattle.std.specs.Prelude.{◌≡◌, ◌++◌, OnOk, drop, string_bytes, take};
ghost use Rattle.run_near_lines.specs.Texts.{arguments_text, call_of, call_text, json_text, more_arguments, named_call};

use base_core::NoMemory;
use names_terms::{DefId, Operator, Spec};
use std::alloc::Global;
use values_core::Value;
use values_json::push_json;

/// Adds the innermost call, if there is one, with the values of its parameters among these slots.
pub(crate) fn push_call(
    alloc: Global,
    text: &mut String,
    spec: &Spec,
    call: Option<DefId>,
    slots: &[Value],
) -> Result<(), NoMemory>
    ensures { OnOk result (string_bytes text.new ≡ string_bytes text.old ++ call_text spec.now.operators call slots.now) }
{
    match call {
        None => Ok(()),
        Some(number) => match spec.operators.items().get(number.0) {
            None => Ok(()),
            Some(operator) => push_operator(alloc, text, operator, slots),
        },
    }
}

/// Adds a definition with the values of its parameters, if it has a name.
fn push_operator(
    alloc: Global,
    text: &mut String,
    operator: &Operator,
    slots: &[Value],
) -> Result<(), NoMemory>
    ensures { OnOk result (string_bytes text.new ≡ string_bytes text.old ++ named_call operator.now.name (take operator.now.params (drop operator.now.outer slots.now))) }
{
    let name = operator.name.as_str();
    if name.is_empty() {
        return Ok(());
    }
    text.push_str(" in ")?;
    text.push_str(name)?;
    push_arguments(alloc, text, parameters(operator, slots))
}

/// The values of the definition's parameters, which stand in its slots behind those that are handed on.
fn parameters<'a>(operator: &Operator, slots: &'a [Value]) -> &'a [Value]
    ensures { result.now ≡ take operator.now.params (drop operator.now.outer slots.now) }
{
    let from = operator.outer.min(slots.len());
    let own = &slots[from..];
    let count = operator.params.min(own.len());
    &own[..count]
}

/// Adds arguments in brackets, if there are any.
fn push_arguments(alloc: Global, text: &mut String, arguments: &[Value]) -> Result<(), NoMemory>
    ensures { OnOk result (string_bytes text.new ≡ string_bytes text.old ++ arguments_text arguments.now) }
{
    match arguments {
        [] => Ok(()),
        [first, rest @ ..] => {
            text.push_str("(")?;
            push_json(alloc, text, first)?;
            push_more(alloc, text, rest)?;
            text.push_str(")")
        }
    }
}

/// Adds values, each behind a comma.
fn push_more(alloc: Global, text: &mut String, values: &[Value]) -> Result<(), NoMemory>
    ensures { OnOk result (string_bytes text.new ≡ string_bytes text.old ++ more_arguments values.now) }
{
    for value in values {
        text.push_str(", ")?;
        push_json(alloc, text, value)?;
    }
    Ok(())
}
