//! The pieces that a text is cut into.

ghost use Rattle.std.specs.Prelude.{◌≡◌};
ghost use Rattle.reading_tokens.specs.FaultCodes.{lex_code};
ghost use Rattle.reading_tokens.specs.Tokens.{OneOutcome, SomeOutcome};

use crate::token::Kind;
use std::fmt;
use thiserror::Error;

/// Why a text has no tokens.
#[derive(Clone, Copy, Debug, Drop, PartialEq, Eq, Error)]
pub enum LexKind {
    /// The text is no UTF-8. It stands at the first byte behind the longest front that is.
    NotUtf8,
    /// A character that begins no token, or an escape that strings do not have.
    BadCharacter,
    /// A string that does not end in its line.
    OpenString,
    /// A comment that does not end; it stands at its opening.
    OpenComment,
    /// A number above 9223372036854775807.
    NumberTooLarge,
    /// More than 200,000 tokens; it stands at the first beyond them.
    TooManyTokens,
}

/// The code and the name of the refusal.
impl fmt::Display for LexKind {
    fn fmt<W: fmt::Write>(&self, f: &mut fmt::Formatter<W>) -> fmt::Result {
        f.write_str(self.code())
    }
}

impl LexKind {
    /// The code and the name of the refusal.
    pub fn code(&self) -> &'static str
        ensures { result.now ≡ lex_code self.now }
    {
        match self {
            LexKind::NotUtf8 => "L1 NotUtf8",
            LexKind::BadCharacter => "L2 BadCharacter",
            LexKind::OpenString => "L3 OpenString",
            LexKind::OpenComment => "L4 OpenComment",
            LexKind::NumberTooLarge => "L5 NumberTooLarge",
            LexKind::TooManyTokens => "L6 TooManyTokens",
        }
    }
}

/// What one piece of a text is.
#[derive(Drop)]
pub enum Shape {
    /// A blank character or a comment.
    Blank,
    /// The spelling of a token.
    Spelled(Kind),
    /// What ends the reading.
    Bad(LexKind),
}

/// Each text has exactly one outcome: its tokens, or why and where it has none.
pub fn one_outcome()
    ensures one { OneOutcome }
    ensures some { SomeOutcome }
{}
