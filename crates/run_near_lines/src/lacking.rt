//! What is seen and alone does not stand there.

ghost use Rattle.std.specs.Prelude.{◌≤◌, OnOk, length};
ghost use Rattle.run_texts.specs.Answers.{named};
ghost use Rattle.run_near_lines.specs.Adding.{Adds, LackingSays};

use crate::firsts::keep;
use crate::seeing::{found_at, lacking_alone};
use crate::subject::Subject;
use crate::words::unseen_text;
use base_core::{NoMemory, Text};
use states_core::Partial;
use std::alloc::Global;
use std::collections::BTreeSet;

/// Keeps the line of what is seen and alone is lacking in a branch that was gone through, where this is filled.
pub(crate) fn keep_lacking(
    alloc: Global,
    subject: Subject<'_>,
    places: &Partial,
    texts: &mut BTreeSet<Text>,
    room: usize,
) -> Result<(), NoMemory>
    requires { length texts.old.keys ≤ room }
    ensures { OnOk result (Adds room (LackingSays subject.entry.line.now (named subject.entry.labels.now) places.now) texts.old.keys texts.new.keys) }
{
    match lacking_alone(subject.line.sees.items(), places) {
        None => Ok(()),
        Some(see) => {
            let text = unseen_text(alloc, subject, see, found_at(see, places))?;
            keep(texts, room, text)
        }
    }
}
