//! Why branches end, where some are gone through and lack what is seen.

ghost use Rattle.std.specs.Prelude.{◌≡◌, ◌↔◌, All, IfOk, IsTrue};
ghost use Rattle.steps_why_not.specs.Lines.{EndsFor, IsUnseen, StandsIn};
ghost use Rattle.steps_why_not.specs.Taken.{Lacks};
ghost use Rattle.steps_why_not.specs.Whys.{AreReasons};

use base_core::NoMemory;
use logs_updates::{See, seen};
use states_core::{Partial, VarId};
use std::alloc::Global;
use steps_why_branches::{Ended, Why, WhyKind};

/// Why each branch ends, in their order: something that is seen stands in none that was gone through.
pub fn reasons(alloc: Global, sees: &[See], ends: &[Ended]) -> Result<Vec<Why>, NoMemory>
    requires { All (Lacks sees.now) ends.now }
    ensures { IfOk result (λ whys. AreReasons sees.now ends.now whys.items) }
{
    let mut whys = Vec::with_capacity(alloc, ends.len())?;
    for end in ends {
        whys.push(reason(sees, end))?;
    }
    Ok(whys)
}

fn reason(sees: &[See], end: &Ended) -> Why
    requires { Lacks sees.now end.now }
    ensures { EndsFor sees.now end.now result }
{
    match end {
        Ended::Ends(why) => *why,
        Ended::Passed(places, _) => Why {
            at: None,
            reason: WhyKind::NotSeen(unseen(sees, places)),
        },
    }
}

/// The variable of the first that is seen and does not stand in the places.
fn unseen(sees: &[See], places: &Partial) -> VarId
    requires { ¬ All (StandsIn places.now) sees.now }
    ensures { IsUnseen sees.now places.now result.0 }
{
    for see in sees {
        if !stands_in(see, places) {
            return see.path.variable();
        }
    }
    unreachable!()
}

/// Whether what is seen stands in the places.
pub fn stands_in(see: &See, places: &Partial) -> bool
    ensures { IsTrue result ↔ StandsIn places.now see.now }
{
    match places.get(see.path.variable()) {
        Some(value) => seen(see, value),
        None => false,
    }
}
