ghost use Rattle.states_files.specs.Laws.{StateFileSaysOne, KeysAscend, StateLineSaysOne};

/// That a line has one outcome at most, that a file says one thing at most, and that the keys of an
/// object ascend.
pub fn state_laws()
    ensures line { StateLineSaysOne }
    ensures file { StateFileSaysOne }
    ensures keys { KeysAscend }
{}
