ghost use Rattle.std.specs.Prelude.{◌≤◌, All, IfOk, OnOk, length, string_bytes};
ghost use Rattle.states_core.specs.States.{Values};
ghost use Rattle.steps_lines_defs.specs.Says.{IsState};
ghost use Rattle.steps_ready_defs.specs.Ready.{IsReadyLine, IsReadySpec};
ghost use Rattle.run_texts.specs.Answers.{named};
ghost use Rattle.steps_why_not.specs.Results.{AreUpdated};
ghost use Rattle.steps_why_not.specs.Taken.{LeadsThere};
ghost use Rattle.run_near_lines.specs.Adding.{Adds};
ghost use Rattle.run_near_lines.specs.Repairs.{AreReached, AreRepairs};
ghost use Rattle.run_near_lines.specs.Tells.{IsNearLine, TellsNear};

use crate::ends::all_ends;
use crate::firsts::near_told;
use crate::keeping::keep_ends;
use crate::subject::Subject;
use actions_form_laws::whole_law;
use base_core::{NoMemory, Text};
use logs_updates::Line;
use names_terms::Spec;
use run_texts::Labels;
use states_core::{Partial, State};
use std::alloc::Global;
use std::collections::BTreeSet;
use steps_moves::moved;
use steps_walk_laws::orderly_law;
use steps_why_branches::{Passing, Sparing};

/// The near lines of the line from all of these entries, each once and in ascending order: the first `most`, and whether there are more.
pub fn near_lines(
    alloc: Global,
    labels: &Labels<'_>,
    spec: &Spec,
    line: &Line,
    entries: &[State],
    most: u32,
) -> Result<String, NoMemory>
    requires ready { IsReadySpec spec.now }
    requires fits { IsReadyLine spec.now line.now }
    requires states { All (IsState (length spec.now.variables)) entries.now }
    ensures told { IfOk result (λ told. TellsNear spec.now line.now (named labels.now) most entries.now (string_bytes told)) }
    ensures repairs { (s : Values) → IsState (length spec.now.variables) s → AreRepairs spec.now line.now s }
    ensures reached { IfOk result (λ told. All (AreReached spec.now line.now) entries.now) }
{
    repair_law(spec, line);
    let subject = Subject { labels, spec, line };
    let room = most as usize + 1;
    let mut texts = BTreeSet::new(alloc);
    for entry in entries {
        keep_entry(alloc, subject, entry, &mut texts, room)?;
    }
    near_told(alloc, &texts, most)
}

/// Keeps the near lines from one entry.
fn keep_entry(
    alloc: Global,
    subject: Subject<'_>,
    entry: &State,
    texts: &mut BTreeSet<Text>,
    room: usize,
) -> Result<(), NoMemory>
    requires ready { IsReadySpec subject.spec.now }
    requires fits { IsReadyLine subject.spec.now subject.line.now }
    requires state { IsState (length subject.spec.now.variables) entry.now }
    requires few { length texts.old.keys ≤ room }
    ensures keeps { OnOk result (Adds room (IsNearLine subject.entry.spec.now subject.entry.line.now (named subject.entry.labels.now) entry.now) texts.old.keys texts.new.keys) }
    ensures reached { OnOk result (AreReached subject.entry.spec.now subject.entry.line.now entry.now) }
{
    match moved(alloc, &subject.line.updates, entry)? {
        None => Ok(()),
        Some(places) => keep_from(alloc, subject, entry, &places, texts, room),
    }
}

/// The same, from the places that the line's updates fill.
fn keep_from(
    alloc: Global,
    subject: Subject<'_>,
    entry: &State,
    places: &Partial,
    texts: &mut BTreeSet<Text>,
    room: usize,
) -> Result<(), NoMemory>
    requires ready { IsReadySpec subject.spec.now }
    requires fits { IsReadyLine subject.spec.now subject.line.now }
    requires state { IsState (length subject.spec.now.variables) entry.now }
    requires updated { AreUpdated subject.line.now.updates entry.now places.now }
    requires exact { LeadsThere subject.line.now.updates entry.now places.now }
    requires few { length texts.old.keys ≤ room }
    ensures keeps { OnOk result (Adds room (IsNearLine subject.entry.spec.now subject.entry.line.now (named subject.entry.labels.now) entry.now) texts.old.keys texts.new.keys) }
    ensures reached { OnOk result (AreReached subject.entry.spec.now subject.entry.line.now entry.now) }
{
    orderly_law();
    whole_law();
    let sparing = Sparing {
        at: Passing::OnePlace,
        call: None,
    };
    let ends = all_ends(alloc, subject.spec, subject.line, entry, sparing, places)?;
    keep_ends(alloc, subject, &ends, texts, room)
}

/// That the line would have a step, had what a near line names held.
fn repair_law(spec: &Spec, line: &Line)
    requires ready { IsReadySpec spec.now }
    requires fits { IsReadyLine spec.now line.now }
    ensures { (s : Values) → IsState (length spec.now.variables) s → AreRepairs spec.now line.now s }
{
    orderly_law();
    whole_law();
}
