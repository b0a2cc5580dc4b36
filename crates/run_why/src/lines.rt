//! The lines that tell why.

ghost use Rattle.std.specs.Prelude.{◌≡◌, ◌++◌, OnOk, string_bytes};
ghost use Rattle.run_texts.specs.Answers.{named};
ghost use Rattle.run_texts.specs.States.{in_order};
ghost use Rattle.run_why.specs.Lines.{entry_text, reason_text, told_of, why_more, why_text, whys_text};

use base_core::{LineAt, Names, NoMemory};
use run_near_lines::{push_place, variable_name};
use run_texts::{Labels, log_name, push_line, push_state};
use states_core::State;
use std::alloc::Global;
use steps_why_branches::{Why, WhyKind};

/// Adds the line of an entry.
pub(crate) fn push_entry(
    alloc: Global,
    text: &mut String,
    labels: &Labels<'_>,
    order: &[usize],
    state: &State,
) -> Result<(), NoMemory>
    requires { order.now ≡ in_order labels.now.variables.now }
    ensures { OnOk result (string_bytes text.new ≡ string_bytes text.old ++ entry_text (named labels.now) state.now) }
{
    text.push_str("WHY STATE ")?;
    push_state(alloc, text, labels.variables, order, state)?;
    text.push_str("\n")
}

/// Adds a line for each of these branches of the line that stands there.
pub(crate) fn push_whys(
    text: &mut String,
    labels: &Labels<'_>,
    at: LineAt,
    whys: &[Why],
) -> Result<(), NoMemory>
    ensures { OnOk result (string_bytes text.new ≡ string_bytes text.old ++ whys_text (named labels.now) at whys.now) }
{
    for why in whys {
        push_why(text, labels, at, why)?;
    }
    Ok(())
}

fn push_why(text: &mut String, labels: &Labels<'_>, at: LineAt, why: &Why) -> Result<(), NoMemory>
    ensures { OnOk result (string_bytes text.new ≡ string_bytes text.old ++ why_text (named labels.now) at why.now) }
{
    text.push_str("WHY ")?;
    push_line(text, log_name(labels.logs, at.file), at.line)?;
    push_reason(text, labels.variables, why.reason)?;
    push_place(text, labels.files, why.at)?;
    text.push_str("\n")
}

/// Adds the reason for which a branch ends.
fn push_reason(text: &mut String, names: &Names, reason: WhyKind) -> Result<(), NoMemory>
    ensures { OnOk result (string_bytes text.new ≡ string_bytes text.old ++ reason_text names.now reason) }
{
    match reason {
        WhyKind::TestFalse => text.push_str(" TestFalse"),
        WhyKind::Differs(variable) => push_told(text, " Differs ", variable_name(names, variable)),
        WhyKind::NotIn(variable) => push_told(text, " NotIn ", variable_name(names, variable)),
        WhyKind::NoMember => text.push_str(" NoMember"),
        WhyKind::Fault(kind) => push_told(text, " Fault ", kind.code()),
        WhyKind::NoUpdate(variable) => push_told(
            text,
            " NoUpdate ",
            variable_name(names, variable),
        ),
        WhyKind::NotSeen(variable) => push_told(text, " NotSeen ", variable_name(names, variable)),
    }
}

fn push_told(text: &mut String, reason: &str, of: &str) -> Result<(), NoMemory>
    ensures { OnOk result (string_bytes text.new ≡ string_bytes text.old ++ told_of reason.now of.now) }
{
    text.push_str(reason)?;
    text.push_str(of)
}

/// Adds that there are more branches than those that were told of.
pub(crate) fn push_more(text: &mut String) -> Result<(), NoMemory>
    ensures { OnOk result (string_bytes text.new ≡ string_bytes text.old ++ why_more) }
{
    text.push_str("WHY MORE\n")
}
