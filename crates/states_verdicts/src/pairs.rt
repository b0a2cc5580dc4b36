ghost use Rattle.std.specs.Prelude.{◌≡◌, ◌<◌, ◌↔◌, IfOk, IsTrue};
ghost use Rattle.states_core.specs.States.{Values};
ghost use Rattle.states_verdicts.specs.Asks.{PairAsks, IsComposed};
ghost use Rattle.states_verdicts.specs.Tellings.{Tells};

use base_core::LineAt;
use states_core::{Fault, State};
use std::alloc::{AllocError, Global};

/// What evaluation tells of a condition at given states. A fault anywhere goes before what holds or fails.
#[derive(Clone, Copy, Debug, Drop, PartialEq, Eq)]
pub enum Told {
    Holds,
    Fails,
    Faults(Fault),
}

/// What tests given states, and pairs of them, against a specification beside a log. Lines are counted from 0.
pub trait Pairs {
    ghost asks: { Self → PairAsks };

    /// What holds of it wherever a state is tested.
    ghost ready: { Self → Type 0 };

    /// What the states are that are tested.
    ghost is_state: { Self → Values → Type 0 };

    /// How many lines there are.
    fn count(&self) -> u32
        ensures { result ≡ (asks self.now).system.count };

    /// How many steps there may be from one line's state to the next line's, that line's own counted.
    fn within(&self) -> u32
        ensures { result ≡ (asks self.now).system.within };

    /// Where the line stands that is the step from one state to another.
    fn at(&self, line: u32, from: &State, to: &State) -> LineAt
        requires { line < (asks self.now).system.count }
        ensures { result ≡ (asks self.now).system.at line from.now to.now };

    /// Whether the initial predicate holds of the state.
    fn first(&self, alloc: Global, state: &State) -> Result<Told, AllocError>
        requires ready { ready self.now }
        requires state { is_state self.now state.now }
        ensures { IfOk result (λ told. Tells ((asks self.now).system.Init state.now) ((asks self.now).FaultInit state.now) told) };

    /// Whether the state agrees with what the log shows of the first one.
    fn first_shows(&self, alloc: Global, state: &State) -> Result<bool, AllocError>
        requires ready { ready self.now }
        requires state { is_state self.now state.now }
        ensures { IfOk result (λ shows. IsTrue shows ↔ (asks self.now).system.InitSeen state.now) };

    /// Whether the line's updates lead from one state to the other.
    fn moves(&self, alloc: Global, line: u32, from: &State, to: &State) -> Result<bool, AllocError>
        requires ready { ready self.now }
        requires left { line < (asks self.now).system.count }
        requires from { is_state self.now from.now }
        requires to { is_state self.now to.now }
        ensures { IfOk result (λ moves. IsTrue moves ↔ (asks self.now).Moves line from.now to.now) };

    /// Whether the second state agrees with what the line shows.
    fn shows(&self, alloc: Global, line: u32, from: &State, to: &State) -> Result<bool, AllocError>
        requires ready { ready self.now }
        requires left { line < (asks self.now).system.count }
        requires from { is_state self.now from.now }
        requires to { is_state self.now to.now }
        ensures { IfOk result (λ shows. IsTrue shows ↔ (asks self.now).system.Seen line from.now to.now) };

    /// Whether the state may stay as it is in the line's step.
    fn stutters(&self, line: u32) -> bool
        requires left { line < (asks self.now).system.count }
        ensures { IsTrue result ↔ (asks self.now).Stutters line };

    /// Whether the operator of the line's event, where it has one, holds of the two states, and the next-state action.
    fn acts(&self, alloc: Global, line: u32, from: &State, to: &State) -> Result<Told, AllocError>
        requires ready { ready self.now }
        requires left { line < (asks self.now).system.count }
        requires from { is_state self.now from.now }
        requires to { is_state self.now to.now }
        ensures { IfOk result (λ told. Tells ((asks self.now).Acts line from.now to.now) ((asks self.now).FaultActs line from.now to.now) told) };

    /// Whether a step that no line shows leads from one state to the other.
    fn silent(&self, alloc: Global, from: &State, to: &State) -> Result<Told, AllocError>
        requires ready { ready self.now }
        requires from { is_state self.now from.now }
        requires to { is_state self.now to.now }
        ensures { IfOk result (λ told. Tells ((asks self.now).system.Silent from.now to.now) ((asks self.now).FaultSilent from.now to.now) told) };

    ghost agrees: { (p : Self) → IsComposed (asks p) };
}
