//! Levels of what stands before a step.

ghost use Rattle.std.specs.Prelude.{◌≡◌};
ghost use Rattle.names_terms.specs.Levels.{joined, of_step, of_terms};
ghost use Rattle.names_terms.specs.TermViews.{step_view};

use names_terms::{Level, Step, Terms};

/// The greater of two levels.
fn joined(a: Level, b: Level) -> Level
    ensures { result ≡ joined a b }
{
    match a {
        Level::Constant => b,
        Level::State => match b {
            Level::Constant => Level::State,
            Level::State | Level::Action | Level::Temporal => b,
        },
        Level::Action => match b {
            Level::Temporal => Level::Temporal,
            Level::Constant | Level::State | Level::Action => Level::Action,
        },
        Level::Temporal => Level::Temporal,
    }
}

fn of_terms(terms: &Terms) -> Level
    ensures { result ≡ of_terms terms.now }
{
    let items = terms.items();
    let mut level = Level::Constant;
    for term in items {
        level = joined(level, term.level);
    }
    level
}

/// The level behind a step.
pub fn of_step(level: Level, step: &Step) -> Level
    ensures { result ≡ of_step level (step_view step.now) }
{
    match step {
        Step::Prime => Level::Action,
        Step::Index(terms) => joined(level, of_terms(terms)),
        Step::Field(_) => level,
    }
}
