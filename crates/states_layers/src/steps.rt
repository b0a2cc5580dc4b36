ghost use Rattle.std.specs.Prelude.{◌≡◌, ℕ, ◌<◌};
ghost use Rattle.states_core.specs.System.{System, Begins};
ghost use Rattle.states_layers.specs.Gives.{Gives, Tells, IsReached};

use crate::member::Member;
use base_core::{LineAt, Place};
use states_core::Fault;
use std::alloc::{AllocError, Global};
use thiserror::Error;

/// Why steps are not listed, or an assumption is not told of: an evaluation faults, there are more
/// steps than was asked for, or memory is wanting.
#[derive(Debug, Drop, Error)]
pub enum StepFault {
    #[error("{0}")]
    Eval(Fault),
    #[error("more steps than were asked for")]
    TooMany,
    #[error("out of memory")]
    NoMemory,
}

impl From<AllocError> for StepFault {
    ghost use Rattle.std.specs.Prelude.{◌≡◌};
    ghost use Rattle.states_layers.specs.declared.steps.StepFault.TheVariants.{NoMemory};

    ghost from_gives = { λ error fault. fault ≡ NoMemory };

    fn from(_error: AllocError) -> StepFault {
        StepFault::NoMemory
    }
}

/// What gives the steps of a specification beside a log, from one member of a layer to another. Steps are asked only
/// from what is a member of some layer. Lines are counted from 0, and so are assumptions.
pub trait Steps {
    /// What the layers hold.
    type Entry: Member;

    ghost system: { Self → System Self.Entry };

    /// What holds of it wherever its steps and its assumptions are asked for.
    ghost ready: { Self → Type 0 };

    /// How many lines there are.
    fn count(&self) -> u32
        ensures { result ≡ (system self.now).count };

    /// How many steps there may be from one line's state to the next line's, that line's own counted.
    fn within(&self) -> u32
        ensures { result ≡ (system self.now).within };

    /// How many entries a layer may have.
    fn limit(&self) -> u32
        ensures { result ≡ (system self.now).limit };

    /// How many entries all layers may have together.
    fn total(&self) -> u32
        ensures { result ≡ (system self.now).total };

    /// Where the line stands that is the step from one entry to another.
    fn at(&self, line: u32, from: &Self::Entry, to: &Self::Entry) -> LineAt
        requires left { line < (system self.now).count }
        requires reached { IsReached (system self.now) line from.now }
        requires step { (system self.now).Step line from.now to.now }
        ensures { result ≡ (system self.now).at line from.now to.now };

    /// Where the line stands that is expected at an entry.
    fn expected(&self, line: u32, from: &Self::Entry) -> LineAt
        requires left { line < (system self.now).count }
        requires reached { IsReached (system self.now) line from.now }
        ensures { (system self.now).Expected line from.now result };

    /// How many assumptions there are.
    fn assumes(&self) -> usize
        ensures { result ≡ (system self.now).assumes };

    /// Nothing where the assumption is TRUE, or its place where it is FALSE. Where there is none of the number, the
    /// answer tells nothing.
    fn assumed(&self, alloc: Global, index: usize) -> Result<Option<Place>, StepFault>
        requires ready { ready self.now }
        ensures { index < (system self.now).assumes → Tells (system self.now) index result };

    /// The first entries, each once.
    fn initial(&self, alloc: Global, bound: u32) -> Result<Vec<Self::Entry>, StepFault>
        requires ready { ready self.now }
        ensures { Gives (Begins (system self.now)) (system self.now).FaultInit (system self.now).InitSeen bound result };

    /// The entries to which a line leads from an entry, each once.
    fn successors(
        &self,
        alloc: Global,
        line: u32,
        from: &Self::Entry,
        bound: u32,
    ) -> Result<Vec<Self::Entry>, StepFault>
        requires ready { ready self.now }
        requires left { line < (system self.now).count }
        requires reached { IsReached (system self.now) line from.now }
        ensures { Gives ((system self.now).Step line from.now) ((system self.now).FaultStep line from.now) ((system self.now).Seen line from.now) bound result };

    /// The entries to which a step that no line shows leads from an entry, each once.
    fn silent(
        &self,
        alloc: Global,
        from: &Self::Entry,
        bound: u32,
    ) -> Result<Vec<Self::Entry>, StepFault>
        requires ready { ready self.now }
        requires reached { (n : ℕ) × IsReached (system self.now) n from.now }
        ensures { Gives ((system self.now).Silent from.now) ((system self.now).FaultSilent from.now) (λ t. Unit {0}) bound result };

    ghost shows: { (s : Self) (m : Self.Entry) → (system s).state_of m ≡ Self.Entry.state_of m };
}
