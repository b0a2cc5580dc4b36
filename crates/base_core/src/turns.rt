ghost use Rattle.std.specs.Prelude.{◌≡◌, MatchBool, Contains};
ghost use Rattle.base_core.specs.Device.{count_after};

/// Numbers the calls of a device in memory from 1, and tells those that are to fail.
#[derive(Debug, Drop)]
pub(crate) struct Turns {
    pub(crate) failing: Vec<u64>,
    pub(crate) calls: u64,
}

impl Turns {
    /// The first call will have the number 1.
    pub(crate) fn new(failing: Vec<u64>) -> Turns
        ensures failing { result.failing ≡ failing }
        ensures calls { result.calls ≡ 0 }
    {
        Turns { failing, calls: 0 }
    }

    /// Numbers the next call, and tells whether it fails.
    pub(crate) fn next_fails(&mut self) -> bool
        ensures failing { self.new.failing.items ≡ self.old.failing.items }
        ensures calls { self.new.calls ≡ count_after self.old.calls }
        ensures fails { MatchBool result (Contains self.old.failing.items self.new.calls) (¬ Contains self.old.failing.items self.new.calls) }
    {
        self.calls = self.calls.saturating_add(1);
        self.failing.contains(&self.calls)
    }
}
