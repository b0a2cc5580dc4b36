ghost use Rattle.std.specs.Prelude.{◌≡◌, IsTrue, IfOk};
ghost use Rattle.states_core.specs.States.{Values};

use crate::sharing::SharedValues;
use states_core::State;
use std::alloc::{AllocError, Global};
use std::hash::Hash;

/// What a layer holds: a state, or a state with more beside it, as a cut of several logs.
pub trait Member: Eq + Hash + Drop {
    ghost state_of: { Self → Values };

    /// The state in it.
    fn state(&self) -> &State
        ensures { result.now ≡ state_of self.now };

    /// The state in it, which alone is kept.
    fn into_state(self) -> State
        ensures { result ≡ state_of self };

    /// An equal member.
    fn copy(&self, alloc: Global) -> Result<Self, AllocError>
        ensures { IfOk result (λ member. member ≡ self.now) };

    /// An equal member, whose values are those that are known, where they are.
    fn shared(self, _values: &mut SharedValues) -> Result<Self, AllocError>
    where
        Self: Sized,
        ensures { IfOk result (λ member. member ≡ self) }
    {
        Ok(self)
    }

    ghost same: { (one other : Self) → IsTrue (Self.eq one other) → one ≡ other };
}

impl Member for State {
    ghost use Rattle.states_core.specs.StateOrder.{state_decides};

    ghost state_of = { λ s. s };

    ghost same = { λ s t. (state_decides s t).0 };

    fn state(&self) -> &State {
        self
    }

    fn into_state(self) -> State {
        self
    }

    fn copy(&self, alloc: Global) -> Result<State, AllocError> {
        State::copy(self, alloc)
    }

    fn shared(self, values: &mut SharedValues) -> Result<State, AllocError> {
        values.shared(self)
    }
}
