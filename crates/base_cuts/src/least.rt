ghost use Rattle.std.specs.Prelude.{◌≡◌, ◌↔◌, ◌≤◌, ℕ, IsTrue, MatchOption, Some, length, slice_get};
ghost use Rattle.base_cuts.specs.Cuts.{next, taken};
ghost use Rattle.base_cuts.specs.Heads.{HasBelow, IsLeast};
ghost use Rattle.base_cuts.specs.Orders.{Carries, FollowsBy, sizes_of};
ghost use Rattle.base_cuts.specs.Views.{logs_of};

use crate::clock::Clock;
use crate::cut::Cut;

/// Whether that log has a next line, and its clock is above that of no log's next line. By reference, so that numbers are
/// compared as any other clocks.
#[tactic(auto, using(crate::proofs::Heading::no_least))]
pub(crate) fn is_least<K: Clock>(clocks: &Vec<Vec<K>>, cut: &Cut, file: usize) -> bool
    ensures { IsTrue result ↔ IsLeast (sizes_of (logs_of clocks.now.items)) (FollowsBy K.above (logs_of clocks.now.items)) cut.now file }
{
    match head(clocks, cut, file) {
        Some(clock) => none_below(clocks, cut, clock),
        None => false,
    }
}

/// Whether the clock is above that of no log's next line.
fn none_below<K: Clock>(clocks: &Vec<Vec<K>>, cut: &Cut, clock: &K) -> bool
    ensures { IsTrue result ↔ ((g : ℕ) → HasBelow K.above (logs_of clocks.now.items) cut.now g clock.now → ⊥) }
{
    for other in 0..clocks.len() {
        if is_below(clocks, cut, other, clock) {
            return false;
        }
    }
    true
}

/// Whether the clock is above that of the next line of that log.
#[tactic(auto, using(crate::proofs::Heading::none_below_it, crate::proofs::Heading::below_it))]
fn is_below<K: Clock>(clocks: &Vec<Vec<K>>, cut: &Cut, file: usize, clock: &K) -> bool
    ensures { IsTrue result ↔ HasBelow K.above (logs_of clocks.now.items) cut.now file clock.now }
{
    match head(clocks, cut, file) {
        Some(other) => clock.is_above(other),
        None => false,
    }
}

/// The clock of the next line of that log, if it has one.
#[tactic(auto, using(crate::proofs::Heading::no_log, crate::proofs::Heading::no_line, crate::proofs::Heading::has_clock))]
fn head<'a, K>(clocks: &'a Vec<Vec<K>>, cut: &Cut, file: usize) -> Option<&'a K>
    ensures { MatchOption result (taken (sizes_of (logs_of clocks.now.items)) file ≤ taken cut.now file) (λ c. Carries (logs_of clocks.now.items) (next cut.now file) c.now) }
{
    match item(clocks, file) {
        Some(log) => match item(log, cut.taken(file) as usize) {
            Some(clock) => Some(clock),
            None => None,
        },
        None => None,
    }
}

/// The item of that number.
fn item<T>(items: &Vec<T>, index: usize) -> Option<&T>
    ensures { MatchOption result (length items.now.items ≤ index) (λ x. slice_get items.now.items index ≡ Some x.now) }
{
    items.get(index)
}
