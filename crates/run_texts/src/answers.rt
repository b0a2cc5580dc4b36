ghost use Rattle.std.specs.Prelude.{◌≡◌, ◌++◌, IfOk, OnOk, codes, decimal, string_bytes};
ghost use Rattle.run_texts.specs.Places.{at_place};
ghost use Rattle.run_texts.specs.States.{states_text};
ghost use Rattle.run_texts.specs.Answers.{named, log_name, fault_text, layer_text, unchecked_text, next_text, explained_text, not_explained_text, step_fault_text, answer_text};

use crate::labels::Labels;
use crate::logs::push_line;
use crate::order::in_order;
use crate::places::{name_at, push_at};
use crate::states::{push_faulty, push_states};
use base_core::{LineAt, Names, NoMemory, Place};
use states_core::{Behaviour, EvalKind, State};
use states_layers::Answer;
use std::alloc::Global;

/// The report of an answer.
pub fn answer_text(alloc: Global, labels: &Labels<'_>, answer: &Answer) -> Result<String, NoMemory>
    ensures { IfOk result (λ t. string_bytes t ≡ answer_text (named labels.now) answer.now) }
{
    match answer {
        Answer::Explained { behaviour, widest } => explained(alloc, labels, behaviour, *widest),
        Answer::NotExplained {
            prefix,
            of,
            after,
            behaviour,
        } => not_explained(alloc, labels, *prefix, *of, *after, behaviour),
        Answer::NoInitial => no_initial(alloc, labels.unchecked),
        Answer::InitFault { kind, at } => {
            faulted(alloc, "FAULT ", labels.files, *kind, *at, " in init\n")
        }
        Answer::Fault {
            after,
            silent,
            state,
            kind,
            at,
        } => step_fault(alloc, labels, *after, *silent, state, *kind, *at),
        Answer::AssumeFault { kind, at } => {
            faulted(alloc, "ASSUME FAULT ", labels.files, *kind, *at, "\n")
        }
        Answer::AssumeFalse { at } => assumed_false(alloc, labels.files, *at),
        Answer::LayerLimit { after, silent } => layer_limit(alloc, labels.limit, *after, *silent),
        Answer::TotalLimit { after, silent } => total_limit(alloc, *after, *silent),
    }
}

fn explained(
    alloc: Global,
    labels: &Labels<'_>,
    behaviour: &Behaviour,
    widest: u32,
) -> Result<String, NoMemory>
    ensures { IfOk result (λ t. string_bytes t ≡ explained_text (named labels.now) behaviour.now widest) }
{
    let lines = labels.lines;
    let mut text = format!(in alloc; "EXPLAINED lines={lines} widest={widest}\n")?;
    push_behaviour(alloc, &mut text, labels, behaviour)?;
    Ok(text)
}

fn not_explained(
    alloc: Global,
    labels: &Labels<'_>,
    prefix: u32,
    of: u32,
    next: LineAt,
    behaviour: &Behaviour,
) -> Result<String, NoMemory>
    ensures { IfOk result (λ t. string_bytes t ≡ not_explained_text (named labels.now) prefix of next behaviour.now) }
{
    let mut text = format!(in alloc; "NOT EXPLAINED prefix={prefix} of={of}")?;
    push_next(&mut text, labels.logs, next)?;
    text.push_str("\n")?;
    push_behaviour(alloc, &mut text, labels, behaviour)?;
    Ok(text)
}

/// Adds what is not checked, and the lines of the behaviour's states.
fn push_behaviour(
    alloc: Global,
    text: &mut String,
    labels: &Labels<'_>,
    behaviour: &Behaviour,
) -> Result<(), NoMemory>
    ensures { OnOk result (string_bytes text.new ≡ string_bytes text.old ++ (unchecked_text labels.now.unchecked.now ++ states_text labels.now.variables.now behaviour.now)) }
{
    let order = in_order(alloc, labels.variables)?;
    push_unchecked(text, labels.unchecked)?;
    push_states(alloc, text, labels.variables, order.as_slice(), behaviour)
}

/// Adds the line that comes next.
fn push_next(text: &mut String, logs: &Names, next: LineAt) -> Result<(), NoMemory>
    ensures { OnOk result (string_bytes text.new ≡ string_bytes text.old ++ next_text logs.now next) }
{
    text.push_str(" next=")?;
    push_line(text, log_name(logs, next.file), next.line)
}

/// The name of the log of that number, from 1.
pub fn log_name(logs: &Names, file: u32) -> &str
    ensures { result.now ≡ log_name logs.now file }
{
    if file == 0 {
        return "";
    }
    name_at(logs, (file - 1) as usize)
}

/// Adds a line for each thing that is not checked.
fn push_unchecked(text: &mut String, unchecked: &Names) -> Result<(), NoMemory>
    ensures { OnOk result (string_bytes text.new ≡ string_bytes text.old ++ unchecked_text unchecked.now) }
{
    for what in unchecked.items() {
        push_not_checked(text, what.as_str())?;
    }
    Ok(())
}

fn push_not_checked(text: &mut String, what: &str) -> Result<(), NoMemory>
    ensures { OnOk result (string_bytes text.new ≡ string_bytes text.old ++ (codes "NOT CHECKED " ++ what.now ++ codes "\n")) }
{
    write!(text, "NOT CHECKED {what}\n")
}

fn no_initial(alloc: Global, unchecked: &Names) -> Result<String, NoMemory>
    ensures { IfOk result (λ t. string_bytes t ≡ codes "NO INITIAL STATE\n" ++ unchecked_text unchecked.now) }
{
    let mut text = String::from_str(alloc, "NO INITIAL STATE\n")?;
    push_unchecked(&mut text, unchecked)?;
    Ok(text)
}

/// A line on what went wrong in an evaluation.
pub(crate) fn faulted(
    alloc: Global,
    front: &str,
    files: &Names,
    kind: EvalKind,
    at: Place,
    back: &str,
) -> Result<String, NoMemory>
    ensures { IfOk result (λ t. string_bytes t ≡ front.now ++ fault_text files.now kind at ++ back.now) }
{
    let mut text = String::from_str(alloc, front)?;
    text.push_str(kind.code())?;
    push_at(&mut text, files, at)?;
    text.push_str(back)?;
    Ok(text)
}

fn step_fault(
    alloc: Global,
    labels: &Labels<'_>,
    after: u32,
    silent: u32,
    state: &State,
    kind: EvalKind,
    at: Place,
) -> Result<String, NoMemory>
    ensures { IfOk result (λ t. string_bytes t ≡ step_fault_text (named labels.now) after silent state.now kind at) }
{
    let order = in_order(alloc, labels.variables)?;
    let mut text = faulted(alloc, "FAULT ", labels.files, kind, at, "")?;
    push_layer(&mut text, after, silent)?;
    push_faulty(alloc, &mut text, labels.variables, order.as_slice(), state)?;
    Ok(text)
}

fn assumed_false(alloc: Global, files: &Names, at: Place) -> Result<String, NoMemory>
    ensures { IfOk result (λ t. string_bytes t ≡ codes "ASSUME FALSE" ++ at_place files.now at ++ codes "\n") }
{
    let mut text = String::from_str(alloc, "ASSUME FALSE")?;
    push_at(&mut text, files, at)?;
    text.push_str("\n")?;
    Ok(text)
}

fn layer_limit(alloc: Global, limit: u32, after: u32, silent: u32) -> Result<String, NoMemory>
    ensures { IfOk result (λ t. string_bytes t ≡ codes "LAYER LIMIT " ++ decimal limit ++ layer_text after silent) }
{
    let mut text = format!(in alloc; "LAYER LIMIT {limit}")?;
    push_layer(&mut text, after, silent)?;
    Ok(text)
}

fn total_limit(alloc: Global, after: u32, silent: u32) -> Result<String, NoMemory>
    ensures { IfOk result (λ t. string_bytes t ≡ codes "TOTAL LIMIT 2000000" ++ layer_text after silent) }
{
    let mut text = String::from_str(alloc, "TOTAL LIMIT 2000000")?;
    push_layer(&mut text, after, silent)?;
    Ok(text)
}

/// Adds after how many lines and silent steps a layer stands.
fn push_layer(text: &mut String, after: u32, silent: u32) -> Result<(), NoMemory>
    ensures { OnOk result (string_bytes text.new ≡ string_bytes text.old ++ layer_text after silent) }
{
    write!(text, " after={after} silent={silent}\n")
}
