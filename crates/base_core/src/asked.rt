ghost use Rattle.std.specs.Prelude.{◌≡◌, ◌≤◌, None, Some};
ghost use Rattle.base_core.specs.Failures.{no_failures, one_more};

use crate::text::Text;
use std::marker::Model;

/// Which file was asked for last, and which calls failed.
#[derive(Debug, Drop)]
pub(crate) struct Asked {
    name: Option<Text>,
    /// Whether the last call that failed came after this file was asked for.
    failed: bool,
    /// If it came earlier, the file that was asked for then, if one was.
    before: Option<Text>,
    /// How many calls failed.
    count: u64,
}

impl Model for Asked {
    ghost use Rattle.base_core.specs.Memory.{Course};
    ghost use Rattle.std.specs.Prelude.{if◌then◌else◌};

    ghost Value = { Course };

    ghost view = { λ a. record { asked = a.name; failures = record { count = a.count; last = if a.failed then a.name else a.before } } };
}

impl Asked {
    /// No file was asked for, and no call failed.
    pub(crate) fn new() -> Asked
        ensures asked { result.asked ≡ None }
        ensures failures { result.failures ≡ no_failures }
    {
        Asked {
            name: None,
            failed: false,
            before: None,
            count: 0,
        }
    }

    /// This file is asked for.
    pub(crate) fn ask(&mut self, name: Text)
        ensures asked { self.new.asked ≡ Some name }
        ensures failures { self.new.failures ≡ self.old.failures }
    {
        let earlier = self.name.replace(name);
        if self.failed {
            self.before = earlier;
            self.failed = false;
        }
    }

    /// A call on the file that was asked for fails.
    pub(crate) fn fail(&mut self)
        ensures asked { self.new.asked ≡ self.old.asked }
        ensures failures { self.new.failures ≡ one_more self.old.asked self.old.failures }
        ensures later { self.old.failures.count ≤ self.new.failures.count }
    {
        self.failed = true;
        self.count = self.count.saturating_add(1);
    }

    /// How many calls failed.
    pub(crate) fn count(&self) -> u64
        ensures { result ≡ self.now.failures.count }
    {
        self.count
    }
}
