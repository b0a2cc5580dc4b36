//! The words that begin statements.

ghost use Rattle.std.specs.Prelude.{◌≡◌};
ghost use Rattle.reading_configuration.specs.Keywords.{begins_statement, keyword_of};

/// What a configuration chooses once, by a name.
#[derive(Clone, Copy, Debug, Drop, PartialEq, Eq)]
pub(crate) enum Part {
    Init,
    Next,
    Specification,
}

/// What a configuration lists to be checked.
#[derive(Clone, Copy, Debug, Drop, PartialEq, Eq)]
pub(crate) enum Listed {
    Invariant,
    Property,
}

/// What a word begins that begins a statement.
#[derive(Clone, Copy, Debug, Drop, PartialEq, Eq)]
pub(crate) enum Keyword {
    Chooses(Part),
    Lists(Listed),
    Deadlock,
    /// A statement outside this project's profile.
    Unsupported,
}

/// What a word begins, if it begins a statement.
#[tactic(auto, unfolding(crate::specs::Keywords::keyword_of))]
pub(crate) fn keyword_of(word: &str) -> Option<Keyword>
    ensures { result ≡ keyword_of word.now }
{
    match word {
        "INIT" => Some(Keyword::Chooses(Part::Init)),
        "NEXT" => Some(Keyword::Chooses(Part::Next)),
        "SPECIFICATION" => Some(Keyword::Chooses(Part::Specification)),
        "INVARIANT" => Some(Keyword::Lists(Listed::Invariant)),
        "INVARIANTS" => Some(Keyword::Lists(Listed::Invariant)),
        "PROPERTY" => Some(Keyword::Lists(Listed::Property)),
        "PROPERTIES" => Some(Keyword::Lists(Listed::Property)),
        "CHECK_DEADLOCK" => Some(Keyword::Deadlock),
        "CONSTRAINT" => Some(Keyword::Unsupported),
        "CONSTRAINTS" => Some(Keyword::Unsupported),
        "ACTION_CONSTRAINT" => Some(Keyword::Unsupported),
        "ACTION_CONSTRAINTS" => Some(Keyword::Unsupported),
        "SYMMETRY" => Some(Keyword::Unsupported),
        "VIEW" => Some(Keyword::Unsupported),
        "ALIAS" => Some(Keyword::Unsupported),
        _ => None,
    }
}

/// Whether the word begins a statement. So do `CONSTANT` and `CONSTANTS`, which are no names.
pub fn begins_statement(word: &str) -> bool
    ensures { result ≡ begins_statement word.now }
{
    keyword_of(word).is_some()
}
