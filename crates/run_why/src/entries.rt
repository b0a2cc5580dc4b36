//! Which entries and branches are told of.

ghost use Rattle.std.specs.Prelude.{◌≡◌, ◌≤◌, All, IfOk, OnOk, string_bytes};
ghost use Rattle.steps_ready_defs.specs.Ready.{IsReadyLine, IsReadySpec};
ghost use Rattle.run_texts.specs.Answers.{named};
ghost use Rattle.run_texts.specs.States.{in_order};
ghost use Rattle.run_why.specs.Tells.{LeadsNowhere};
ghost use Rattle.run_why.specs.Telling.{IsTold, TellsBehind};

use crate::lines::{push_entry, push_more, push_whys};
use base_core::NoMemory;
use logs_updates::Line;
use names_terms::Spec;
use run_texts::{Labels, in_order};
use states_core::State;
use std::alloc::Global;
use steps_why_not::why;

/// What is told of: a line that leads on from none of some entries.
#[derive(Clone, Copy, Drop)]
pub(crate) struct Subject<'a> {
    pub spec: &'a Spec,
    pub line: &'a Line,
}

/// Adds why the line leads on from none of these entries, with at most so many branches.
pub(crate) fn push_entries(
    alloc: Global,
    text: &mut String,
    labels: &Labels<'_>,
    subject: Subject<'_>,
    entries: &[State],
    most: u32,
) -> Result<(), NoMemory>
    requires ready { IsReadySpec subject.spec.now }
    requires fits { IsReadyLine subject.spec.now subject.line.now }
    requires nowhere { All (LeadsNowhere subject.spec.now subject.line.now) entries.now }
    ensures { OnOk result (TellsBehind subject.entry.spec.now subject.entry.line.now (named labels.now) most entries.now (string_bytes text.old) (string_bytes text.new)) }
{
    let order = in_order(alloc, labels.variables)?;
    let mut left = most;
    for entry in entries {
        if left == 0 {
            return push_more(text);
        }
        match push_told(alloc, text, labels, &order, subject, entry, left)? {
            Some(rest) => left = rest,
            None => return Ok(()),
        }
    }
    Ok(())
}

/// Adds the entry with its first branches, and, where there are more, that there are; else how many more may be told of.
#[tactic(auto, using(crate::proofs::Counting::whys_few))]
fn push_told(
    alloc: Global,
    text: &mut String,
    labels: &Labels<'_>,
    order: &[usize],
    subject: Subject<'_>,
    entry: &State,
    most: u32,
) -> Result<Option<u32>, NoMemory>
    requires ready { IsReadySpec subject.spec.now }
    requires fits { IsReadyLine subject.spec.now subject.line.now }
    requires nowhere { LeadsNowhere subject.spec.now subject.line.now entry.now }
    requires order { order.now ≡ in_order labels.now.variables.now }
    requires most { 1 ≤ most }
    ensures { IfOk result (λ left. IsTold subject.entry.spec.now subject.entry.line.now (named labels.now) most entry.now left (string_bytes text.old) (string_bytes text.new)) }
{
    let whys = why(alloc, subject.spec, subject.line, entry, most)?;
    push_entry(alloc, text, labels, order, entry)?;
    push_whys(text, labels, subject.line.at, &whys.list)?;
    if whys.more {
        push_more(text)?;
        return Ok(None);
    }
    Ok(Some(most - whys.list.len() as u32))
}
