//! The words of near lines.

ghost use Rattle.std.specs.Prelude.{◌≡◌, ◌++◌, IfOk, OnOk, codes, option_map, string_bytes};
ghost use Rattle.run_texts.specs.Answers.{log_name, named};
ghost use Rattle.run_texts.specs.Logs.{line_text};
ghost use Rattle.run_texts.specs.Places.{name_at};
ghost use Rattle.run_near_lines.specs.Texts.{both_kinds, failed_text, found_text, place_behind, spared_text, unseen_text, values_text, variable_text, wanted_text};

use crate::calls::push_call;
use crate::kinds::push_kinds;
use crate::subject::Subject;
use base_core::{LineAt, Names, NoMemory, Place, Text};
use logs_updates::See;
use run_texts::{Labels, log_name, name_at, push_at, push_line};
use states_core::{Partial, VarId};
use std::alloc::Global;
use steps_why_branches::{Spared, WhyKind};
use values_core::Value;
use values_json::push_json;

/// The line of a part that was passed over, where these places are filled.
pub(crate) fn spared_text(
    alloc: Global,
    subject: Subject<'_>,
    spared: &Spared,
    places: &Partial,
) -> Result<Text, NoMemory>
    ensures { IfOk result (λ t. t ≡ spared_text subject.entry.spec.now (named subject.entry.labels.now) subject.entry.line.now.at spared.now places.now) }
{
    let mut text = begun(alloc, subject.labels, subject.line.at)?;
    push_failed(alloc, &mut text, subject.labels, spared, places)?;
    push_call(
        alloc,
        &mut text,
        subject.spec,
        spared.call,
        spared.slots.values(),
    )?;
    ended(alloc, text)
}

/// The line of what is seen and does not stand there, where this stands at its path, if anything does.
pub(crate) fn unseen_text(
    alloc: Global,
    subject: Subject<'_>,
    see: &See,
    found: Option<&Value>,
) -> Result<Text, NoMemory>
    ensures { IfOk result (λ t. t ≡ unseen_text (named subject.entry.labels.now) subject.entry.line.now.at see.now (option_map (λ v. v.now) found.entry)) }
{
    let mut text = begun(alloc, subject.labels, subject.line.at)?;
    text.push_str(" NotSeen ")?;
    text.push_str(variable_name(subject.labels.variables, see.path.variable()))?;
    push_values(alloc, &mut text, Some(&see.value), found)?;
    ended(alloc, text)
}

/// The beginning of a line on the line of a log that stands there.
fn begun(alloc: Global, labels: &Labels<'_>, at: LineAt) -> Result<String, NoMemory>
    ensures { IfOk result (λ t. string_bytes t ≡ codes "NEAR " ++ line_text (log_name labels.now.logs.now at.file) at.line) }
{
    let mut text = String::from_str(alloc, "NEAR ")?;
    push_line(&mut text, log_name(labels.logs, at.file), at.line)?;
    Ok(text)
}

/// The text of a whole line.
fn ended(alloc: Global, text: String) -> Result<Text, NoMemory>
    ensures { IfOk result (λ t. t ≡ string_bytes text ++ codes "\n") }
{
    let mut line = text;
    line.push_str("\n")?;
    Text::from_text(alloc, line.as_str())
}

/// Adds why a part fails, where it stands, and which values there are.
fn push_failed(
    alloc: Global,
    text: &mut String,
    labels: &Labels<'_>,
    spared: &Spared,
    places: &Partial,
) -> Result<(), NoMemory>
    ensures { OnOk result (string_bytes text.new ≡ string_bytes text.old ++ failed_text (named labels.now) spared.now.why.reason spared.now.why.at spared.now.wanted places.now) }
{
    match spared.why.reason {
        WhyKind::TestFalse => {
            text.push_str(" TestFalse")?;
            push_place(text, labels.files, spared.why.at)
        }
        WhyKind::Differs(variable) => {
            push_variable(alloc, text, labels, " Differs ", variable, spared, places)
        }
        WhyKind::NotIn(variable) => {
            push_variable(alloc, text, labels, " NotIn ", variable, spared, places)
        }
        WhyKind::NoMember => Ok(()),
        WhyKind::Fault(_) => Ok(()),
        WhyKind::NoUpdate(_) => Ok(()),
        WhyKind::NotSeen(_) => Ok(()),
    }
}

/// Adds what is told of a variable that has another value than a part says.
fn push_variable(
    alloc: Global,
    text: &mut String,
    labels: &Labels<'_>,
    reason: &str,
    variable: VarId,
    spared: &Spared,
    places: &Partial,
) -> Result<(), NoMemory>
    ensures { OnOk result (string_bytes text.new ≡ string_bytes text.old
        ++ variable_text (named labels.now) reason.now variable.0 spared.now.why.at spared.now.wanted places.now) }
{
    text.push_str(reason)?;
    text.push_str(variable_name(labels.variables, variable))?;
    push_place(text, labels.files, spared.why.at)?;
    push_values(alloc, text, spared.wanted.as_ref(), places.get(variable))
}

/// The name of a variable.
pub fn variable_name(names: &Names, variable: VarId) -> &str
    ensures { result.now ≡ name_at names.now variable.0 }
{
    name_at(names, variable.0 as usize)
}

/// Adds the place of a part, where there is one.
pub fn push_place(text: &mut String, files: &Names, at: Option<Place>) -> Result<(), NoMemory>
    ensures { OnOk result (string_bytes text.new ≡ string_bytes text.old ++ place_behind files.now at) }
{
    match at {
        Some(place) => push_at(text, files, place),
        None => Ok(()),
    }
}

/// Adds the value that is wanted, the one that is found, and of what kinds they are, where those are different.
fn push_values(
    alloc: Global,
    text: &mut String,
    wanted: Option<&Value>,
    found: Option<&Value>,
) -> Result<(), NoMemory>
    ensures { OnOk result (string_bytes text.new ≡ string_bytes text.old ++ values_text (option_map (λ v. v.now) wanted.entry) (option_map (λ v. v.now) found.entry)) }
{
    push_wanted(alloc, text, wanted)?;
    push_found(alloc, text, found)?;
    push_both_kinds(alloc, text, wanted, found)
}

fn push_wanted(alloc: Global, text: &mut String, wanted: Option<&Value>) -> Result<(), NoMemory>
    ensures { OnOk result (string_bytes text.new ≡ string_bytes text.old ++ wanted_text (option_map (λ v. v.now) wanted.entry)) }
{
    match wanted {
        None => Ok(()),
        Some(value) => {
            text.push_str(" wanted ")?;
            push_json(alloc, text, value)
        }
    }
}

fn push_found(alloc: Global, text: &mut String, found: Option<&Value>) -> Result<(), NoMemory>
    ensures { OnOk result (string_bytes text.new ≡ string_bytes text.old ++ found_text (option_map (λ v. v.now) found.entry)) }
{
    match found {
        None => text.push_str(" found nothing"),
        Some(value) => {
            text.push_str(" found ")?;
            push_json(alloc, text, value)
        }
    }
}

fn push_both_kinds(
    alloc: Global,
    text: &mut String,
    wanted: Option<&Value>,
    found: Option<&Value>,
) -> Result<(), NoMemory>
    ensures { OnOk result (string_bytes text.new ≡ string_bytes text.old ++ both_kinds (option_map (λ v. v.now) wanted.entry) (option_map (λ v. v.now) found.entry)) }
{
    match wanted {
        None => Ok(()),
        Some(value) => match found {
            None => Ok(()),
            Some(other) => push_kinds(alloc, text, value, other),
        },
    }
}
