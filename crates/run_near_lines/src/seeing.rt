//! What is seen of a next state, and what stands there.

ghost use Rattle.std.specs.Prelude.{◌↔◌, All, IsTrue, MatchOption, option_map};
ghost use Rattle.logs_updates.specs.Changes.{Finds, LeadsTo};
ghost use Rattle.logs_updates.specs.declared.update.See.{See};
ghost use Rattle.steps_why_not.specs.Lines.{StandsIn};
ghost use Rattle.run_near_lines.specs.Adding.{IsOnly};
ghost use Rattle.run_near_lines.specs.Near.{LacksAlone, StandsAt};

use logs_updates::{PathKey, See};
use states_core::Partial;
use steps_why_not::stands_in;
use values_core::Value;

/// Whether all that is seen stands in the places.
pub(crate) fn all_stand_in(sees: &[See], places: &Partial) -> bool
    ensures { IsTrue result ↔ All (StandsIn places.now) sees.now }
{
    for see in sees {
        if !stands_in(see, places) {
            return false;
        }
    }
    true
}

/// What is seen and alone does not stand in the places, if there is one such thing and no more.
pub(crate) fn lacking_alone<'a>(sees: &'a [See], places: &Partial) -> Option<&'a See>
    ensures { MatchOption result ((see : See) → ¬ LacksAlone sees.now places.now see) (λ see. LacksAlone sees.now places.now see.now) }
{
    let mut lacking = None;
    for see in sees {
        if !stands_in(see, places) {
            if lacking.is_some() {
                return None;
            }
            lacking = Some(see);
        }
    }
    lacking
}

/// What stands at the path in the places, if anything does.
pub(crate) fn found_at<'a>(see: &See, places: &'a Partial) -> Option<&'a Value>
    ensures { IsOnly (Finds (StandsAt places.now see.now.path)) (option_map (λ v. v.now) result) }
{
    match places.get(see.path.variable()) {
        Some(value) => leads_to(see.path.keys(), value),
        None => None,
    }
}

/// What the keys lead to from the value, if they lead anywhere.
fn leads_to<'a>(keys: &[PathKey], value: &'a Value) -> Option<&'a Value>
    ensures { IsOnly (Finds (LeadsTo keys.now value.now)) (option_map (λ v. v.now) result) }
{
    value.is_value();
    let Some((key, rest)) = keys.split_first() else {
        return Some(value);
    };
    let Some(inner) = key.at(value) else {
        return None;
    };
    leads_to(rest, inner)
}
