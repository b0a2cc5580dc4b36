ghost use Rattle.std.specs.Prelude.{◌≡◌, ◌<◌, ◌+◌, ◌^◌, All, IfOk, IfErr, Some, length, slice_get};
ghost use Rattle.states_verdicts.specs.Asks.{IsSmall};
ghost use Rattle.states_verdicts.specs.Cleans.{line_after, silents_after, reached_at};
ghost use Rattle.states_verdicts.specs.Verdicts.{IsVerdict};
ghost use Rattle.states_verdicts.specs.Founds.{IsFound};
ghost use Rattle.states_verdicts.specs.Passes.{HasCome, IsStop};

use crate::judging::{Found, judge_first, judge_next};
use crate::pairs::Pairs;
use crate::verdict::{Reason, Verdict};
use states_core::{Behaviour, Mark, Shown};
use std::alloc::{AllocError, Global};

/// How many lines are behind, and how many silent states behind the last of them.
#[derive(Clone, Copy, Drop)]
struct Came {
    line: u32,
    silents: u32,
}

/// Why the pass stops at a state.
#[derive(Drop)]
enum Stop {
    Answered(Verdict),
    NoMemory,
}

impl From<AllocError> for Stop {
    ghost use Rattle.std.specs.Prelude.{◌≡◌};
    ghost use Rattle.states_verdicts.specs.declared.checking.Stop.TheVariants.{NoMemory};

    ghost from_gives = { λ error stop. stop ≡ NoMemory };

    fn from(_error: AllocError) -> Stop {
        Stop::NoMemory
    }
}

fn shown_at<'a, P: Pairs>(_pairs: &P, states: &'a [Shown], index: usize) -> &'a Shown
    requires states { All (λ x. P.is_state _pairs.now x.state) states.now }
    requires inside { index < length states.now }
    ensures there { slice_get states.now index ≡ Some result.now }
    ensures state { P.is_state _pairs.now result.now.state }
{
    &states[index]
}

/// What is found of the state with this number.
#[tactic(auto, using(crate::proofs::Passing::silents_room))]
fn find<P: Pairs>(
    alloc: Global,
    pairs: &P,
    states: &[Shown],
    index: usize,
    came: Came,
) -> Result<Found, AllocError>
    requires ready { P.ready pairs.now }
    requires states { All (λ x. P.is_state pairs.now x.state) states.now }
    requires small { IsSmall (P.asks pairs.now) }
    requires inside { index < length states.now }
    requires come { HasCome (P.asks pairs.now) states.now index came.line came.silents }
    ensures { IfOk result (λ found. IsFound (P.asks pairs.now) (reached_at states.now index) (slice_get states.now index) found) }
{
    let here = shown_at(pairs, states, index);
    if index == 0 {
        return judge_first(alloc, pairs, here.mark, &here.state);
    }
    let before = shown_at(pairs, states, index - 1);
    judge_next(
        alloc,
        pairs,
        came.line,
        came.silents,
        &before.state,
        here.mark,
        &here.state,
    )
}

fn after(came: Came, mark: Mark) -> Came
    requires line { came.line + 1 < 2 ^ 32 }
    requires silents { came.silents + 1 < 2 ^ 32 }
    ensures line { result.line ≡ line_after mark came.line }
    ensures silents { result.silents ≡ silents_after mark came.silents }
{
    match mark {
        Mark::Init => Came {
            line: came.line,
            silents: 0,
        },
        Mark::Silent => Came {
            line: came.line,
            silents: came.silents + 1,
        },
        Mark::Line(_) => Came {
            line: came.line + 1,
            silents: 0,
        },
    }
}

/// One more clean state, or the verdict.
#[tactic(auto, using(crate::proofs::Passing::few_states, crate::proofs::Passing::line_room, crate::proofs::Passing::silents_room))]
fn go_on<P: Pairs>(
    alloc: Global,
    pairs: &P,
    states: &[Shown],
    index: usize,
    came: Came,
) -> Result<Came, Stop>
    requires ready { P.ready pairs.now }
    requires states { All (λ x. P.is_state pairs.now x.state) states.now }
    requires small { IsSmall (P.asks pairs.now) }
    requires inside { index < length states.now }
    requires come { HasCome (P.asks pairs.now) states.now index came.line came.silents }
    ensures more { IfOk result (λ next. HasCome (P.asks pairs.now) states.now (index + 1) next.line next.silents) }
    ensures stopped { IfErr result (λ stop. IsStop (P.asks pairs.now) states.now stop) }
{
    match find(alloc, pairs, states, index, came)? {
        Found::Clean => Ok(after(came, shown_at(pairs, states, index).mark)),
        Found::Wrong(reason) => Err(Stop::Answered(Verdict::Invalid {
            index: index as u32,
            reason,
        })),
        Found::Faults(fault) => Err(Stop::Answered(Verdict::Fault {
            index: index as u32,
            kind: fault.kind,
            at: fault.at,
        })),
    }
}

const NO_STATE: Verdict = Verdict::Invalid {
    index: 0,
    reason: Reason::NoState,
};

/// One pass over the states.
#[tactic(auto, using(crate::proofs::Passing::few_states, crate::proofs::Passing::come_none, crate::proofs::Passing::no_state))]
fn pass<P: Pairs>(alloc: Global, pairs: &P, states: &[Shown]) -> Result<Verdict, Stop>
    requires ready { P.ready pairs.now }
    requires states { All (λ x. P.is_state pairs.now x.state) states.now }
    requires small { IsSmall (P.asks pairs.now) }
    ensures whole { IfOk result (λ verdict. IsVerdict (P.asks pairs.now) states.now verdict) }
    ensures stopped { IfErr result (λ stop. IsStop (P.asks pairs.now) states.now stop) }
{
    let mut came = Came {
        line: 0,
        silents: 0,
    };
    for index in 0..states.len() {
        came = go_on(alloc, pairs, states, index, came)?;
    }
    if states.len() == 0 {
        return Ok(NO_STATE);
    }
    if came.line < pairs.count() {
        return Ok(Verdict::Invalid {
            index: states.len() as u32,
            reason: Reason::LinesLeft,
        });
    }
    Ok(Verdict::Valid)
}

/// The verdict on marked states: whether they are a behaviour of all lines, or which of them is the first that is not
/// clean, and why.
pub fn check<P: Pairs>(
    alloc: Global,
    pairs: &P,
    behaviour: &Behaviour,
) -> Result<Verdict, AllocError>
    requires ready { P.ready pairs.now }
    requires states { All (λ x. P.is_state pairs.now x.state) behaviour.now }
    requires small { IsSmall (P.asks pairs.now) }
    ensures { IfOk result (λ verdict. IsVerdict (P.asks pairs.now) behaviour.now verdict) }
{
    match pass(alloc, pairs, behaviour.items()) {
        Ok(verdict) => Ok(verdict),
        Err(Stop::Answered(verdict)) => Ok(verdict),
        Err(Stop::NoMemory) => Err(AllocError),
    }
}
