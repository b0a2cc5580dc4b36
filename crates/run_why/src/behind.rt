//! What is told behind a report, where it is wanted.

ghost use Rattle.std.specs.Prelude.{All, OnOk, string_bytes};
ghost use Rattle.steps_ready_defs.specs.Ready.{IsReadyLine, IsReadySpec};
ghost use Rattle.run_texts.specs.Answers.{named};
ghost use Rattle.run_near_lines.specs.Tells.{TellsNear};
ghost use Rattle.run_why.specs.Tells.{LeadsNowhere, Tells};
ghost use Rattle.run_why.specs.Telling.{GoesOn};

use crate::entries::{Subject, push_entries};
use base_core::NoMemory;
use run_near_lines::near_lines;
use run_texts::Labels;
use states_core::State;
use std::alloc::Global;

/// Adds why the line leads on from none of these entries, where it is wanted, with at most so many branches.
pub(crate) fn push_why(
    alloc: Global,
    text: &mut String,
    labels: &Labels<'_>,
    subject: Subject<'_>,
    entries: &[State],
    wanted: Option<u32>,
) -> Result<(), NoMemory>
    requires ready { IsReadySpec subject.spec.now }
    requires fits { IsReadyLine subject.spec.now subject.line.now }
    requires nowhere { All (LeadsNowhere subject.spec.now subject.line.now) entries.now }
    ensures { OnOk result (GoesOn wanted (λ most. Tells subject.entry.spec.now subject.entry.line.now (named labels.now) most entries.now) (string_bytes text.old)
        (string_bytes text.new)) }
{
    match wanted {
        Some(most) => push_entries(alloc, text, labels, subject, entries, most),
        None => Ok(()),
    }
}

/// Adds the near lines of the line from these entries, where they are wanted, at most so many.
pub(crate) fn push_near(
    alloc: Global,
    text: &mut String,
    labels: &Labels<'_>,
    subject: Subject<'_>,
    entries: &[State],
    wanted: Option<u32>,
) -> Result<(), NoMemory>
    requires ready { IsReadySpec subject.spec.now }
    requires fits { IsReadyLine subject.spec.now subject.line.now }
    requires nowhere { All (LeadsNowhere subject.spec.now subject.line.now) entries.now }
    ensures { OnOk result (GoesOn wanted (λ most. TellsNear subject.entry.spec.now subject.entry.line.now (named labels.now) most entries.now) (string_bytes text.old)
        (string_bytes text.new)) }
{
    match wanted {
        Some(most) => {
            let told = near_lines(alloc, labels, subject.spec, subject.line, entries, most)?;
            text.push_str(told.as_str())
        }
        None => Ok(()),
    }
}
