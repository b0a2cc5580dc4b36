//! The report of an answer.

ghost use Rattle.std.specs.Prelude.{◌≡◌, ◌<◌, IfOk, MatchOption, Some, length, slice_get, string_bytes};
ghost use Rattle.steps_ready_defs.specs.Beside.{IsReady, asked};
ghost use Rattle.run_texts.specs.Answers.{answer_text, named};
ghost use Rattle.run_why.specs.Ends.{EndsAt, IsPlain, IsPrefix};
ghost use Rattle.run_why.specs.Reports.{IsReport, IsToldBehind};
ghost use Rattle.run_why.specs.Searched.{IsSearched};

use crate::behind::{push_near, push_why};
use crate::entries::Subject;
use crate::within::push_within;
use base_core::NoMemory;
use logs_updates::{Line, Log};
use run_texts::{Labels, answer_text};
use states_core::State;
use states_layers::{Answer, Searched};
use std::alloc::Global;
use steps_source::SpecSteps;

/// What is to be told behind the report of a log that is explained in part: why the next line leads on from nothing that is reached, with at most so many
/// branches, and at most so many near lines, with whether one more silent step would reach more.
#[derive(Clone, Copy, Drop)]
pub struct Wanted {
    pub why: Option<u32>,
    pub near: Option<u32>,
}

/// The report of an answer; and behind it, where some of the lines are explained and not all, what is wanted of the next one.
pub fn whole_report(
    alloc: Global,
    labels: &Labels<'_>,
    steps: &SpecSteps<'_>,
    searched: Searched<State>,
    wanted: Wanted,
) -> Result<String, NoMemory>
    requires ready { IsReady steps.now.spec.now steps.now.log.now }
    requires searched { IsSearched steps.now.spec.now steps.now.log.now (asked steps.now.stutter steps.now.within steps.now.limit) searched.answer searched.last.items }
    ensures { IfOk result (λ report. IsReport steps.now.spec.now steps.now.log.now (asked steps.now.stutter steps.now.within steps.now.limit) (named labels.now)
        wanted.why wanted.near searched.answer (string_bytes report)) }
{
    match prefix_of(&searched.answer) {
        Some(prefix) => told_behind(alloc, labels, steps, searched, prefix, wanted),
        None => told_alone(alloc, labels, searched),
    }
}

/// How many lines are explained, where some are and not all.
fn prefix_of(answer: &Answer) -> Option<u32>
    ensures { MatchOption result (IsPlain answer.now) (IsPrefix answer.now) }
{
    match answer {
        Answer::Explained { .. } => None,
        Answer::NotExplained { prefix, .. } => Some(*prefix),
        Answer::NoInitial => None,
        Answer::InitFault { .. } => None,
        Answer::Fault { .. } => None,
        Answer::AssumeFault { .. } => None,
        Answer::AssumeFalse { .. } => None,
        Answer::LayerLimit { .. } => None,
        Answer::TotalLimit { .. } => None,
    }
}

/// The report of the answer alone.
fn told_alone(
    alloc: Global,
    labels: &Labels<'_>,
    searched: Searched<State>,
) -> Result<String, NoMemory>
    ensures { IfOk result (λ report. string_bytes report ≡ answer_text (named labels.now) searched.answer) }
{
    answer_text(alloc, labels, &searched.answer)
}

/// The report of the answer, and behind it what is wanted of the line of that number.
fn told_behind(
    alloc: Global,
    labels: &Labels<'_>,
    steps: &SpecSteps<'_>,
    searched: Searched<State>,
    number: u32,
    wanted: Wanted,
) -> Result<String, NoMemory>
    requires ready { IsReady steps.now.spec.now steps.now.log.now }
    requires ends { EndsAt steps.now.spec.now steps.now.log.now (asked steps.now.stutter steps.now.within steps.now.limit) number searched.last.items }
    ensures { IfOk result (λ whole. IsToldBehind steps.now.spec.now steps.now.log.now (asked steps.now.stutter steps.now.within steps.now.limit)
        (named labels.now) number wanted.why wanted.near (answer_text (named labels.now) searched.answer) (string_bytes whole)) }
{
    let Searched { answer, last } = searched;
    let mut whole = answer_text(alloc, labels, &answer)?;
    drop(answer);
    let mut entries = last;
    entries.sort_unstable();
    let subject = Subject {
        spec: steps.spec,
        line: line_at(steps.log, number),
    };
    push_why(alloc, &mut whole, labels, subject, &entries, wanted.why)?;
    push_near(alloc, &mut whole, labels, subject, &entries, wanted.near)?;
    push_within(alloc, &mut whole, steps, &entries, wanted.near)?;
    Ok(whole)
}

/// The line of that number, from 0.
fn line_at(log: &Log, number: u32) -> &Line
    requires { number < length log.now.lines }
    ensures { slice_get log.now.lines number ≡ Some result.now }
{
    match log.lines.get(number as usize) {
        Some(line) => line,
        None => unreachable!(),
    }
}
