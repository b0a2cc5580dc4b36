//! The parts that alone fail.

ghost use Rattle.std.specs.Prelude.{◌≤◌, OnOk, length};
ghost use Rattle.run_texts.specs.Answers.{named};
ghost use Rattle.run_near_lines.specs.Adding.{Adds, FailedSays};

use crate::firsts::keep;
use crate::seeing::all_stand_in;
use crate::subject::Subject;
use crate::words::spared_text;
use base_core::{NoMemory, Text};
use states_core::Partial;
use std::alloc::Global;
use std::collections::BTreeSet;
use steps_why_branches::Spared;

/// Keeps the line of what was passed over first in a branch that was gone through, where this is filled and nothing that is seen is lacking.
pub(crate) fn keep_spared(
    alloc: Global,
    subject: Subject<'_>,
    places: &Partial,
    spared: &Spared,
    texts: &mut BTreeSet<Text>,
    room: usize,
) -> Result<(), NoMemory>
    requires { length texts.old.keys ≤ room }
    ensures { OnOk result (Adds room (FailedSays subject.entry.spec.now subject.entry.line.now (named subject.entry.labels.now) places.now spared.now) texts.old.keys texts.new.keys) }
{
    if !all_stand_in(subject.line.sees.items(), places) {
        return Ok(());
    }
    let text = spared_text(alloc, subject, spared, places)?;
    keep(texts, room, text)
}
