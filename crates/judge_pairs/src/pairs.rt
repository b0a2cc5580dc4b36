ghost use Rattle.std.specs.Prelude.{◌≡◌, ◌≤◌, length};
ghost use Rattle.states_verdicts.specs.Asks.{IsMonotone, IsSmall};
ghost use Rattle.steps_ready_defs.specs.Beside.{IsReady, asked};
ghost use Rattle.judge_pairs.specs.Filling.{pair_asks};

use crate::line::{line_of, may_stay};
use crate::moving::lead;
use crate::showing::are_seen;
use crate::telling::{Between, tell_event, tell_init, tell_silent};
use actions_form_laws::staying_laws;
use base_core::LineAt;
use judge_truth::fault_law;
use logs_updates::Log;
use names_terms::Spec;
use states_core::{Partial, State};
use states_verdicts::{Pairs, Told};
use std::alloc::{AllocError, Global};

/// A specification beside a log, against which given states are judged, and what a search is asked for beside them: whether a line without an event may
/// leave the state as it is, how many steps there may be from one line's state to the next line's, and how many states a layer may have.
#[derive(Clone, Copy, Drop)]
pub struct SpecPairs<'a> {
    pub spec: &'a Spec,
    pub log: &'a Log,
    pub stutter: bool,
    pub within: u32,
    pub limit: u32,
    pub ghost few_lines: { length log.now.lines ≤ 200000 },
    pub ghost some_step: { 1 ≤ within },
    pub ghost few_steps: { within ≤ 8 },
}

/// What judging asks of the sizes holds of it.
pub fn small_law(pairs: &SpecPairs<'_>)
    ensures { IsSmall (pair_asks pairs.now.spec.now pairs.now.log.now (asked pairs.now.stutter pairs.now.within pairs.now.limit)) }
{}

/// A fault at given states is one that a search meets.
pub fn monotone_law(pairs: &SpecPairs<'_>)
    requires { IsReady pairs.now.spec.now pairs.now.log.now }
    ensures { IsMonotone (pair_asks pairs.now.spec.now pairs.now.log.now (asked pairs.now.stutter pairs.now.within pairs.now.limit)) }
{
    staying_laws();
    fault_law();
}

impl<'a> Pairs for SpecPairs<'a> {
    ghost use Rattle.steps_lines_defs.specs.Says.{IsState};
    ghost use Rattle.judge_pairs.specs.Composing.{composed};

    ghost asks = { λ p. pair_asks p.spec.now p.log.now (asked p.stutter p.within p.limit) };

    ghost ready = { λ p. IsReady p.spec.now p.log.now };

    ghost is_state = { λ p s. IsState (length p.spec.now.variables) s };

    fn count(&self) -> u32 {
        self.log.lines.len() as u32
    }

    fn within(&self) -> u32 {
        self.within
    }

    fn at(&self, line: u32, _from: &State, _to: &State) -> LineAt {
        line_of(self.log, line).at
    }

    fn first(&self, alloc: Global, state: &State) -> Result<Told, AllocError> {
        tell_init(alloc, self.spec, state)
    }

    fn first_shows(&self, _alloc: Global, state: &State) -> Result<bool, AllocError> {
        Ok(are_seen(self.log.init.items(), state))
    }

    fn moves(
        &self,
        alloc: Global,
        line: u32,
        from: &State,
        to: &State,
    ) -> Result<bool, AllocError> {
        let line = line_of(self.log, line);
        lead(alloc, &line.updates, from, to)
    }

    fn shows(
        &self,
        _alloc: Global,
        line: u32,
        _from: &State,
        to: &State,
    ) -> Result<bool, AllocError> {
        let line = line_of(self.log, line);
        Ok(are_seen(line.sees.items(), to))
    }

    fn stutters(&self, line: u32) -> bool {
        let line = line_of(self.log, line);
        may_stay(self.stutter, line)
    }

    fn acts(&self, alloc: Global, line: u32, from: &State, to: &State) -> Result<Told, AllocError> {
        let line = line_of(self.log, line);
        let before = Partial::of(alloc, from)?;
        let after = Partial::of(alloc, to)?;
        let between = Between {
            spec: self.spec,
            from,
            to,
            before: &before,
            after: &after,
        };
        tell_event(alloc, between, &line.event)
    }

    fn silent(&self, alloc: Global, from: &State, to: &State) -> Result<Told, AllocError> {
        let before = Partial::of(alloc, from)?;
        let after = Partial::of(alloc, to)?;
        let between = Between {
            spec: self.spec,
            from,
            to,
            before: &before,
            after: &after,
        };
        tell_silent(alloc, between, self.spec.silent)
    }

    ghost agrees = { λ p. composed p.spec.now p.log.now (asked p.stutter p.within p.limit) };
}
