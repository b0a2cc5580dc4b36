ghost use Rattle.std.specs.Prelude.{◌≡◌, ◌≤◌, All, Err, IfErr, IfOk, OnOk, Ok, length};
ghost use Rattle.steps_lines_defs.specs.Says.{IsState};
ghost use Rattle.steps_lined.specs.Beside.{IsReadyOver, lines_of};
ghost use Rattle.states_files.specs.Files.{StateFileSays};
ghost use Rattle.states_files.specs.declared.refusal.StateRefusal.{StateRefusal};
ghost use Rattle.run_words.specs.Words.{JobMeets};
ghost use Rattle.run_texts.specs.GivenStates.{states_refusal};
ghost use Rattle.run_reading_defs.specs.Texts.{HasText};
ghost use Rattle.run_reading_defs.specs.Given.{AllGiven, GivenWants, states_limit};
ghost use Rattle.run_stages.specs.Stops.{IsToldBy, RefusedWith};
ghost use Rattle.run_stages.specs.GivenStops.{GivenStopsBy};

use crate::reading::{Accepted, read_all};
use crate::stop::{Stop, unread};
use base_core::limits::MAX_STATES_BYTES;
use base_core::{Files, Names, Text, read_file};
use run_texts::states_refusal;
use run_words::Job;
use states_core::Behaviour;
use states_files::read_states;
use std::alloc::Global;

/// What was made of the texts of a job of `check`: what was accepted, and the states that are given beside it.
#[derive(Drop)]
pub struct Given {
    pub accepted: Accepted,
    pub states: Behaviour,
}

/// Reads the texts of a job of `check` in their order: those of `validate`, then the file of states. The first refusal ends the reading; nothing is
/// read behind it.
pub fn read_given<F: Files>(
    alloc: Global,
    job: &Job,
    witness: &Text,
    files: &mut F,
) -> Result<Given, Stop>
    requires { JobMeets job.now }
    ensures accepted { IfOk result (λ g. AllGiven (F.holds files.old) job.now witness.now g.accepted.program g.accepted.config g.accepted.spec g.accepted.lined g.states) }
    ensures ready { IfOk result (λ g. IsReadyOver g.accepted.spec g.accepted.lined) }
    ensures few_lines { IfOk result (λ g. lines_of g.accepted.lined ≤ 200000) }
    ensures states { IfOk result (λ g. All (λ x. IsState (length g.accepted.spec.variables) x.state) g.states) }
    ensures stopped { IfErr result (GivenStopsBy (F.holds files.old) (F.faults files.old) (F.faults files.new) job.now witness.now) }
    ensures quiet { OnOk result (F.failures files.new ≡ F.failures files.old) }
    ensures told { IfErr result (IsToldBy (F.failures files.old) (F.failures files.new)) }
    ensures same { F.holds files.new ≡ F.holds files.old }
    ensures later { F.faults files.old ≤ F.faults files.new }
{
    let accepted = read_all(alloc, job, files)?;
    let text = read_witness(alloc, job, witness, files)?;
    let states = states_of(alloc, &accepted.spec.variables, witness, text.as_slice())?;
    Ok(Given { accepted, states })
}

/// The bytes of the file of states, which is read next.
fn read_witness<F: Files>(
    alloc: Global,
    job: &Job,
    witness: &Text,
    files: &mut F,
) -> Result<Vec<u8>, Stop>
    requires { GivenWants (F.holds files.now) job.now witness.now witness.now states_limit }
    ensures text { IfOk result (λ text. HasText (F.holds files.old) witness.now states_limit text.items) }
    ensures stopped { IfErr result (GivenStopsBy (F.holds files.old) (F.faults files.old) (F.faults files.new) job.now witness.now) }
    ensures quiet { OnOk result (F.failures files.new ≡ F.failures files.old) }
    ensures told { IfErr result (IsToldBy (F.failures files.old) (F.failures files.new)) }
    ensures same { F.holds files.new ≡ F.holds files.old }
    ensures later { F.faults files.old ≤ F.faults files.new }
{
    match read_file(alloc, files, witness, MAX_STATES_BYTES) {
        Ok(text) => Ok(text),
        Err(fault) => Err(unread(alloc, fault, witness)?),
    }
}

/// The states that the text of a file of this name says.
fn states_of(
    alloc: Global,
    variables: &Names,
    witness: &Text,
    text: &[u8],
) -> Result<Behaviour, Stop>
    requires short { length text.now ≤ states_limit }
    ensures says { IfOk result (λ w. StateFileSays variables.now text.now (Ok w)) }
    ensures states { IfOk result (λ w. All (λ x. IsState (length variables.now) x.state) w) }
    ensures refused { IfErr result (RefusedWith (λ report. (refusal : StateRefusal) × StateFileSays variables.now text.now (Err refusal)
        × (report ≡ states_refusal witness.now refusal))) }
{
    let said = read_states(alloc, variables, text)?;
    match said {
        Ok(states) => Ok(states),
        Err(refusal) => Err(Stop::Refused(states_refusal(alloc, witness.as_str(), &refusal)?)),
    }
}
