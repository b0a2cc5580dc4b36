//! The near lines of branches.

ghost use Rattle.std.specs.Prelude.{◌≤◌, OnOk, length};
ghost use Rattle.run_texts.specs.Answers.{named};
ghost use Rattle.run_near_lines.specs.Adding.{Adds, NearSays, OneSays, PassedSays};

use crate::failing::keep_spared;
use crate::lacking::keep_lacking;
use crate::subject::Subject;
use base_core::{NoMemory, Text};
use states_core::Partial;
use std::alloc::Global;
use std::collections::BTreeSet;
use steps_why_branches::{Ended, Spared};

/// Keeps the lines of these branches, in which the parts at one place may be passed over.
pub(crate) fn keep_ends(
    alloc: Global,
    subject: Subject<'_>,
    ends: &[Ended],
    texts: &mut BTreeSet<Text>,
    room: usize,
) -> Result<(), NoMemory>
    requires { length texts.old.keys ≤ room }
    ensures { OnOk result (Adds room (OneSays (NearSays subject.entry.spec.now subject.entry.line.now (named subject.entry.labels.now)) ends.now) texts.old.keys texts.new.keys) }
{
    for end in ends {
        keep_end(alloc, subject, end, texts, room)?;
    }
    Ok(())
}

/// The same of one branch.
fn keep_end(
    alloc: Global,
    subject: Subject<'_>,
    end: &Ended,
    texts: &mut BTreeSet<Text>,
    room: usize,
) -> Result<(), NoMemory>
    requires { length texts.old.keys ≤ room }
    ensures { OnOk result (Adds room (NearSays subject.entry.spec.now subject.entry.line.now (named subject.entry.labels.now) end.now) texts.old.keys texts.new.keys) }
{
    match end {
        Ended::Passed(places, spared) => keep_passed(alloc, subject, places, spared, texts, room),
        Ended::Ends(_) => Ok(()),
    }
}

/// The same of one that was gone through, where this is filled: of the part that alone fails, or of what is seen and alone does not stand there.
fn keep_passed(
    alloc: Global,
    subject: Subject<'_>,
    places: &Partial,
    spared: &Option<Spared>,
    texts: &mut BTreeSet<Text>,
    room: usize,
) -> Result<(), NoMemory>
    requires { length texts.old.keys ≤ room }
    ensures { OnOk result (Adds room (PassedSays subject.entry.spec.now subject.entry.line.now (named subject.entry.labels.now) places.now spared.now) texts.old.keys texts.new.keys) }
{
    match spared {
        Some(first) => keep_spared(alloc, subject, places, first, texts, room),
        None => keep_lacking(alloc, subject, places, texts, room),
    }
}
