//! The words of statements that bound or fold a search.

ghost use Rattle.std.specs.Prelude.{◌≡◌, IfOk};
ghost use Rattle.reading_wide_configuration.specs.Bounds.{begins_any, bound_of, line_of};

use base_core::Text;
use reading_configuration::begins_statement;
use std::alloc::{AllocError, Global};

/// What a configuration says of TLC's search alone, and of no given run.
#[derive(Clone, Copy, Debug, Drop, PartialEq, Eq)]
pub(crate) enum Bound {
    Constraint,
    ActionConstraint,
    Symmetry,
    View,
    Alias,
    Postcondition,
}

/// What the word says of a search, if it begins a statement that says such a thing.
#[tactic(auto, unfolding(crate::specs::Bounds::bound_of))]
pub(crate) fn bound_of(word: &str) -> Option<Bound>
    ensures { result ≡ bound_of word.now }
{
    match word {
        "CONSTRAINT" => Some(Bound::Constraint),
        "CONSTRAINTS" => Some(Bound::Constraint),
        "ACTION_CONSTRAINT" => Some(Bound::ActionConstraint),
        "ACTION_CONSTRAINTS" => Some(Bound::ActionConstraint),
        "SYMMETRY" => Some(Bound::Symmetry),
        "VIEW" => Some(Bound::View),
        "ALIAS" => Some(Bound::Alias),
        "POSTCONDITION" => Some(Bound::Postcondition),
        _ => None,
    }
}

/// Whether the word begins any statement.
pub(crate) fn begins_any(word: &str) -> bool
    ensures { result ≡ begins_any word.now }
{
    begins_statement(word) || bound_of(word).is_some()
}

/// What a line of the report has for a name behind such a word.
pub(crate) fn line(alloc: Global, bound: Bound, name: &Text) -> Result<Text, AllocError>
    ensures { IfOk result (λ line. line ≡ line_of bound name.now) }
{
    let name = name.as_str();
    let line = match bound {
        Bound::Constraint => format!(in alloc; "CONSTRAINT {name}")?,
        Bound::ActionConstraint => format!(in alloc; "ACTION_CONSTRAINT {name}")?,
        Bound::Symmetry => format!(in alloc; "SYMMETRY {name}")?,
        Bound::View => format!(in alloc; "VIEW {name}")?,
        Bound::Alias => format!(in alloc; "ALIAS {name}")?,
        Bound::Postcondition => format!(in alloc; "POSTCONDITION {name}")?,
    };
    Text::from_text(alloc, line.as_str())
}
