ghost use Rattle.std.specs.Prelude.{◌≡◌, ◌<◌, ◌+◌, ◌^◌, IfOk, IsTrue, Some};
ghost use Rattle.states_core.specs.States.{shown};
ghost use Rattle.states_core.specs.declared.state.Mark.TheVariants.{Silent, Line};
ghost use Rattle.states_verdicts.specs.Cleans.{nowhere};
ghost use Rattle.states_verdicts.specs.Founds.{IsFound, found_of, behind};

use crate::pairs::{Pairs, Told};
use crate::verdict::Reason;
use base_core::LineAt;
use states_core::{Fault, Mark, State};
use std::alloc::{AllocError, Global};

/// What is found of one state.
#[derive(Clone, Copy, Drop)]
pub enum Found {
    Clean,
    Wrong(Reason),
    Faults(Fault),
}

/// The fault, the reason where the condition fails, and else by whether all that the log shows is seen.
fn weigh(told: Told, reason: Reason, seen: bool) -> Found
    ensures { result ≡ found_of told reason seen }
{
    match told {
        Told::Holds => {
            if seen {
                Found::Clean
            } else {
                Found::Wrong(Reason::NotSeen)
            }
        }
        Told::Fails => Found::Wrong(reason),
        Told::Faults(fault) => Found::Faults(fault),
    }
}

/// What is found of the first state.
#[tactic(auto, using(crate::proofs::FoundLaws::first_mark, crate::proofs::FoundLaws::first_told))]
pub fn judge_first<P: Pairs>(
    alloc: Global,
    pairs: &P,
    mark: Mark,
    state: &State,
) -> Result<Found, AllocError>
    requires ready { P.ready pairs.now }
    requires state { P.is_state pairs.now state.now }
    ensures { IfOk result (λ found. IsFound (P.asks pairs.now) nowhere (Some (shown mark state.now)) found) }
{
    if mark != Mark::Init {
        return Ok(Found::Wrong(Reason::WrongMark));
    }
    let told = pairs.first(alloc, state)?;
    let seen = pairs.first_shows(alloc, state)?;
    Ok(weigh(told, Reason::NotInit, seen))
}

#[tactic(auto, using(crate::proofs::FoundLaws::silent_mark, crate::proofs::FoundLaws::silent_many, crate::proofs::FoundLaws::silent_told))]
fn judge_silent<P: Pairs>(
    alloc: Global,
    pairs: &P,
    line: u32,
    silents: u32,
    from: &State,
    to: &State,
) -> Result<Found, AllocError>
    requires ready { P.ready pairs.now }
    requires from { P.is_state pairs.now from.now }
    requires to { P.is_state pairs.now to.now }
    requires room { silents + 1 < 2 ^ 32 }
    ensures { IfOk result (λ found. IsFound (P.asks pairs.now) (behind line silents from.now) (Some (shown Silent to.now)) found) }
{
    if line >= pairs.count() {
        return Ok(Found::Wrong(Reason::WrongMark));
    }
    if silents + 1 >= pairs.within() {
        return Ok(Found::Wrong(Reason::TooManySilent));
    }
    let told = pairs.silent(alloc, from, to)?;
    Ok(weigh(told, Reason::NotSilent, true))
}

#[tactic(auto, using(crate::proofs::FoundLaws::line_wrong))]
fn judge_line<P: Pairs>(
    alloc: Global,
    pairs: &P,
    line: u32,
    silents: u32,
    at: LineAt,
    from: &State,
    to: &State,
) -> Result<Found, AllocError>
    requires ready { P.ready pairs.now }
    requires from { P.is_state pairs.now from.now }
    requires to { P.is_state pairs.now to.now }
    ensures { IfOk result (λ found. IsFound (P.asks pairs.now) (behind line silents from.now) (Some (shown (Line at) to.now)) found) }
{
    if line >= pairs.count() {
        return Ok(Found::Wrong(Reason::WrongLine));
    }
    if at != pairs.at(line, from, to) {
        return Ok(Found::Wrong(Reason::WrongLine));
    }
    judge_step(alloc, pairs, line, silents, at, from, to)
}

/// What is found of a state that is marked with the next line.
#[tactic(auto, using(crate::proofs::FoundLaws::line_still, crate::proofs::FoundLaws::line_stays, crate::proofs::FoundLaws::line_told))]
fn judge_step<P: Pairs>(
    alloc: Global,
    pairs: &P,
    line: u32,
    silents: u32,
    at: LineAt,
    from: &State,
    to: &State,
) -> Result<Found, AllocError>
    requires ready { P.ready pairs.now }
    requires from { P.is_state pairs.now from.now }
    requires to { P.is_state pairs.now to.now }
    requires left { line < (P.asks pairs.now).system.count }
    requires next { at ≡ (P.asks pairs.now).system.at line from.now to.now }
    ensures { IfOk result (λ found. IsFound (P.asks pairs.now) (behind line silents from.now) (Some (shown (Line at) to.now)) found) }
{
    if !pairs.moves(alloc, line, from, to)? {
        return Ok(Found::Wrong(Reason::NotStep));
    }
    let seen = pairs.shows(alloc, line, from, to)?;
    if seen && pairs.stutters(line) && to.same(from) {
        return Ok(Found::Clean);
    }
    let told = pairs.acts(alloc, line, from, to)?;
    Ok(weigh(told, Reason::NotStep, seen))
}

/// What is found of a state that stands behind another.
#[tactic(auto, using(crate::proofs::FoundLaws::again_told))]
pub fn judge_next<P: Pairs>(
    alloc: Global,
    pairs: &P,
    line: u32,
    silents: u32,
    from: &State,
    mark: Mark,
    to: &State,
) -> Result<Found, AllocError>
    requires ready { P.ready pairs.now }
    requires from { P.is_state pairs.now from.now }
    requires to { P.is_state pairs.now to.now }
    requires room { silents + 1 < 2 ^ 32 }
    ensures { IfOk result (λ found. IsFound (P.asks pairs.now) (behind line silents from.now) (Some (shown mark to.now)) found) }
{
    match mark {
        Mark::Init => Ok(Found::Wrong(Reason::WrongMark)),
        Mark::Silent => judge_silent(alloc, pairs, line, silents, from, to),
        Mark::Line(at) => judge_line(alloc, pairs, line, silents, at, from, to),
    }
}
