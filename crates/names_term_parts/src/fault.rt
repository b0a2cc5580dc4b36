ghost use Rattle.std.specs.Prelude.{◌≡◌};
ghost use Rattle.names_term_parts.specs.FaultOrder.{is_before, number_of, standing, earlier, held};
ghost use Rattle.names_term_parts.specs.Limits.{is_above, limit};

use base_core::Place;
use names_terms::Level;
use thiserror::Error;

/// What is wrong with the levels in a text.
#[derive(Clone, Copy, Debug, Drop, PartialEq, Eq, Error)]
pub enum LevelFault {
    /// The level of a part, the highest that it may have, and the place of the term that has the part.
    #[error("too high a level at {2}")]
    TooHigh(Level, Level, Place),
    /// The place of an argument whose parameter stands under a prime.
    #[error("an argument is primed at {0}")]
    PrimedArgument(Place),
}

fn number_of(level: Level) -> u32
    ensures { result ≡ number_of level }
{
    match level {
        Level::Constant => 0,
        Level::State => 1,
        Level::Action => 2,
        Level::Temporal => 3,
    }
}

/// Where a fault stands in the order of the text.
fn standing(fault: LevelFault) -> [u32; 6]
    ensures { result ≡ standing fault }
{
    match fault {
        LevelFault::TooHigh(found, allowed, at) => [
            at.file,
            at.line,
            at.col,
            0,
            3 - number_of(allowed),
            number_of(found),
        ],
        LevelFault::PrimedArgument(at) => [at.file, at.line, at.col, 1, 0, 0],
    }
}

/// Whether a fault stands before another in the order of the text.
pub fn is_before(fault: LevelFault, other: LevelFault) -> bool
    ensures { result ≡ is_before fault other }
{
    standing(fault) < standing(other)
}

/// The earlier of what was found and a further fault.
pub fn earlier(found: Option<LevelFault>, fault: LevelFault) -> Option<LevelFault>
    ensures { result ≡ earlier found fault }
{
    match found {
        None => Some(fault),
        Some(other) => {
            if is_before(fault, other) {
                return Some(fault);
            }
            Some(other)
        }
    }
}

/// Whether a level is above another.
pub fn is_above(level: Level, other: Level) -> bool
    ensures { result ≡ is_above level other }
{
    match level {
        Level::Constant => false,
        Level::State => match other {
            Level::Constant => true,
            Level::State | Level::Action | Level::Temporal => false,
        },
        Level::Action => match other {
            Level::Constant | Level::State => true,
            Level::Action | Level::Temporal => false,
        },
        Level::Temporal => match other {
            Level::Constant | Level::State | Level::Action => true,
            Level::Temporal => false,
        },
    }
}

/// The earlier of what was found and that a part of a level is too high for a term at a place.
pub fn held(
    found: Option<LevelFault>,
    at: Place,
    allowed: Level,
    level: Level,
) -> Option<LevelFault>
    ensures { result ≡ held found (limit at allowed level) }
{
    if is_above(level, allowed) {
        return earlier(found, LevelFault::TooHigh(level, allowed, at));
    }
    found
}
