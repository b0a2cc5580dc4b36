ghost use Rattle.std.specs.Prelude.{◌≡◌, IfOk};

use base_cuts::Cut;
use states_core::State;
use states_layers::{Member, SharedValues};
use std::alloc::{AllocError, Global};
use std::hash::{Hash, Hasher};
use std::marker::Model;

/// A cut of the logs with a state.
#[derive(Drop, PartialEq, Eq)]
pub struct Entry {
    pub cut: Cut,
    pub state: State,
}

impl Model for Entry {
    ghost use Rattle.steps_tied.specs.Tied.{CutState};
    ghost use Rattle.steps_cut_source.specs.Entries.{entry_code};

    ghost Value = { CutState };

    ghost coded = { entry_code };

    ghost view = { λ e. record { cut = e.cut; state = e.state } };

    ghost inverse = { λ e. record { cut = e.cut; state = e.state } };
}

impl Hash for Entry {
    ghost use Rattle.steps_cut_source.specs.Entries.{entry_input, entry_same};
    ghost use Rattle.std.proofs.Common.{ap};

    ghost hash_input = { entry_input };

    ghost respects_eq = { λ e f h. ap entry_input (entry_same e f h) };

    fn hash<H: Hasher>(&self, state: &mut H) {
        self.cut.hash(state);
        self.state.hash(state);
    }
}

impl Member for Entry {
    ghost use Rattle.steps_cut_source.specs.Entries.{entry_same};

    ghost state_of = { λ e. e.state };

    ghost same = { entry_same };

    fn state(&self) -> &State {
        &self.state
    }

    fn into_state(self) -> State {
        self.state
    }

    fn copy(&self, alloc: Global) -> Result<Entry, AllocError> {
        Ok(Entry {
            cut: self.cut.copy(alloc)?,
            state: self.state.copy(alloc)?,
        })
    }

    fn shared(self, values: &mut SharedValues) -> Result<Entry, AllocError> {
        let Entry { cut, state } = self;
        let state = values.shared(state)?;
        Ok(Entry { cut, state })
    }
}
